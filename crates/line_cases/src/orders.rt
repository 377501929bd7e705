//! Which lines are orders, and which are none.
use hol_orders::{OrderFault, order_of};
use std::alloc::{AllocError, Global};

/// Whether a line is an order; where it is none, it is `BadOrder`.
pub fn is_order(alloc: Global, line: &str) -> Result<bool, AllocError> {
    match order_of(alloc, line.as_bytes()) {
        Ok(_) => Ok(true),
        Err(OrderFault::BadOrder) => Ok(false),
        Err(OrderFault::Memory) => Err(AllocError),
    }
}

/// Lines that are orders.
pub const ORDERS: &str = r#"{"grow":[]}
{"grow":[{"kind":"LIST","name":"L","element":"A"}]}
{"plan":1}
{"plan":9223372036854775807}
{"goto":2}
{"change":{"version":3,"tag":-7,"put":{},"remove":{}}}
{"change":{"remove":{"K":[[1,"a"],[]],"L":[]},"put":{"K":[null,{"id":1}]},"tag":0,"version":1}}
{"walkindex":["Film","cast.element.name"]}
{"walkfind":["Film","cast.element.name","Ann"]}
{"walkfind":["Film","",{"a":[1.5]}]}
{"history":0}
{"history":1000}
{"was":[1,"A",4294967295]}
{"wasget":[2,"K",[]]}
{"wasget":[2,"K",[null,1.5]]}"#;

/// Lines that are none.
pub const OTHERS: &str = r#"{"grow":{}}
{"grow":[{"kind":"TREE","name":"L"}]}
{"plan":0}
{"plan":9223372036854775808}
{"goto":"1"}
{"goto":1,"plan":1}
{"change":{"version":3,"tag":7,"put":{}}}
{"change":{"version":3,"tag":7,"put":{},"remove":{},"add":{}}}
{"change":{"version":0,"tag":7,"put":{},"remove":{}}}
{"change":{"version":3,"tag":7.0,"put":{},"remove":{}}}
{"change":{"version":3,"tag":7,"put":{"K":{}},"remove":{}}}
{"change":{"version":3,"tag":7,"put":{},"remove":{"K":[1]}}}
{"change":{"version":3,"tag":7,"put":{},"remove":{"K":[[1],2]}}}
{"change":{"version":3,"tag":7,"put":{},"remove":{"K":{}}}}
{"change":{"version":3,"tag":7,"put":{},"remove":[]}}
{"walkindex":["Film",["cast"]]}
{"walkindex":["Film"]}
{"walkfind":["Film","cast"]}
{"walkfind":["Film",1,"Ann"]}
{"history":1001}
{"history":-1}
{"history":1.0}
{"was":[0,"A",1]}
{"was":[1,"A",4294967296]}
{"was":["A",1]}
{"wasget":[1,"K",1]}
{"wasget":["K",[1]]}"#;
