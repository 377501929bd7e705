//! Laws of answers: there is just one.
ghost use Rattle.std.specs.Prelude.{ℕ, List, IfSome};
ghost use Rattle.hol_io.specs.Store.{HoldsBytes, Store};
ghost use Rattle.read_engine.specs.Position.{IsPosition};
ghost use Rattle.hol_orders.specs.declared.order.Order.{Order};
ghost use Rattle.hol_orders.specs.Order.{IsOrder, kind_of};
ghost use Rattle.hollow_machine.specs.State.{Machine, started};
ghost use Rattle.answer_laws.specs.Answered.{IsSettled, IsShowing, IsSound};
ghost use Rattle.answer_laws.specs.Shown.{IsShown};
ghost use Rattle.written_laws.specs.Chain.{Chain};
ghost use Rattle.chain_laws.specs.Producers.{IsProducerOf, KeepsChain};
ghost use Rattle.answer_once.specs.Once.{IsAnsweredOnce, IsMadeOnce, IsScriptedOnce};

/// An order has just one answer line of a sound machine, and leaves just one machine, where the producer is one of the chain that the
/// store keeps, and what the consumer has are closed tables of its model; one that shows records has, where these can be shown.
pub fn one_order_answer()
    ensures told { (machine : Machine) (chain : Chain) (asked : Order) → KeepsChain machine.store chain → IsProducerOf chain machine.producer → IfSome machine.consumer IsPosition
        → IsSound machine → IsOrder asked → IsSettled (kind_of asked) → IsAnsweredOnce machine asked }
    ensures shown { (machine : Machine) (chain : Chain) (asked : Order) → KeepsChain machine.store chain → IsProducerOf chain machine.producer → IfSome machine.consumer IsPosition
        → IsShown machine → IsShowing (kind_of asked) → IsAnsweredOnce machine asked }
{
    answer_laws::laws::some_answer();
    chain_laws::laws::one_answer();
}

/// A run of lines has just one text and one verdict over a store of bytes, and leaves just one machine.
pub fn one_script_answer()
    ensures { (store : Store) (lines : List (List ℕ)) → HoldsBytes store → IsScriptedOnce (started store) lines }
{
    answer_laws::laws::some_script();
    chain_laws::laws::one_script();
}

/// The command `make` has just one answer over a store of bytes, and leaves just one machine.
pub fn one_make_answer()
    ensures { (store : Store) (seed rows cycles : ℕ) → HoldsBytes store → IsMadeOnce store seed rows cycles }
{
    answer_laws::laws::some_make();
    chain_laws::laws::one_make();
}
