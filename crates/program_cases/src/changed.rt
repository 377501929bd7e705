//! The lines of a case that are judged of many blobs: of each front of a blob, of each turned bit of it, and of each failing call.
//!
//! | line | what it says |
//! |---|---|
//! | `cuts N` | `show` refuses each front of the blob of N bytes or more as one that ends too early |
//! | `bits` | `show` prints rows, tells a fault at a place, or a limit, of each blob in which bits of one byte are turned |
//! | `turned KINDS` | what a load, and a step along the blob as delta-1-2 with a bit turned, come to: a letter a bit, the least of each byte first |
//! | `fronts KINDS` | the same of each front of the blob, from none of its bytes on |
//! | `readings N STATUS` | `run` over the input, and over a store that holds what the store holds, ends with 5 and whole lines where a call of that fails, call by call, of N or more, and else with this status |
//!
//! The letters are `h`, a fault at a place; `o`, another origin; `m`, another model; `k`, a step. But for `k` all stays as it was.
use crate::scene::Scene;
use hol_io::BlobStore;
use hol_memory::MemStore;

/// The orders over each changed delta.
const ORDERS: [&str; 3] = [r#"{"load":1}"#, r#"{"step":[1,2]}"#, r#"{"live":"A"}"#];

/// How many calls are tried at most.
const MOST_CALLS: u64 = 1000;

impl Scene {
    /// Whether a line holds that is judged of many blobs, or a line of `bench`.
    pub fn step_changed(&mut self, word: &str, rest: &str, line: &str) -> anyhow::Result<bool> {
        match word.as_bytes() {
            b"cuts" => self.are_cuts(rest.parse::<usize>()?),
            b"bits" => self.are_answered(),
            b"turned" => self.are_turned(rest),
            b"fronts" => self.are_fronts(rest),
            b"readings" => self.are_read(rest),
            _ => self.bench.step(line),
        }
    }

    // Each longer front of the blob ends too early.
    fn are_cuts(&mut self, from: usize) -> anyhow::Result<bool> {
        let blob = self.bench.blob()?;
        let mut all = true;
        for length in from..blob.len() {
            let front = blob.as_slice().get(..length).unwrap_or(&[]);
            let status = self.bench.answer("show snapshot-1", front)?;
            let told = self.bench.text();
            all &= status == 1 && told.ends_with(b"\"name\":\"BadBlob\",\"reason\":40}\n");
        }
        self.bench.settle();
        Ok(all)
    }

    // Each blob with turned bits is answered.
    fn are_answered(&mut self) -> anyhow::Result<bool> {
        let mut all = true;
        for place in 0..self.bench.blob()?.len() {
            for bits in [1, 2, 4, 8, 16, 32, 64, 128, 255] {
                all &= self.is_answered(place, bits)?;
            }
        }
        self.bench.settle();
        Ok(all)
    }

    // Whether `show` answers the blob in which these bits of a byte are turned.
    fn is_answered(&mut self, place: usize, bits: u8) -> anyhow::Result<bool> {
        let mut other = self.bench.blob()?;
        if let Some(byte) = other.get_mut(place) {
            *byte ^= bits;
        }
        let status = self.bench.answer("show snapshot-1", other.as_slice())?;
        let text = self.bench.text();
        Ok(match status {
            0 => text.is_empty() || text.starts_with(b"{\"ordinal\":"),
            1 => text.starts_with(b"{\"at\":") || text.starts_with(b"{\"error\":28,"),
            _ => false,
        })
    }

    // Each turned bit of the delta comes to its kind.
    fn are_turned(&mut self, kinds: &str) -> anyhow::Result<bool> {
        let mut all = true;
        for (place, kinds) in kinds.split_ascii_whitespace().enumerate() {
            for (bit, kind) in kinds.bytes().enumerate() {
                let mut delta = self.bench.blob()?;
                if let Some(byte) = delta.get_mut(place) {
                    *byte ^= 1 << (bit % 8);
                }
                all &= self.delta_comes_to(delta.as_slice(), kind)?;
            }
        }
        self.bench.settle();
        Ok(all)
    }

    // Each front of the delta comes to its kind.
    fn are_fronts(&mut self, kinds: &str) -> anyhow::Result<bool> {
        let delta = self.bench.blob()?;
        let mut all = true;
        for (count, kind) in kinds.bytes().enumerate() {
            let front = delta.as_slice().get(..count).unwrap_or(&[]);
            all &= self.delta_comes_to(front, kind)?;
        }
        self.bench.settle();
        Ok(all)
    }

    // Whether the orders over this delta come to that.
    fn delta_comes_to(&mut self, delta: &[u8], kind: u8) -> anyhow::Result<bool> {
        self.put("delta-1-2", delta)?;
        for order in ORDERS {
            self.bench.ask(order, "\n")?;
        }
        self.bench.answer_over("run", &mut self.store)?;
        Ok(is_told(std::str::from_utf8(self.bench.text())?, kind))
    }

    // Each call of the store that fails ends the run, with a front of what it writes where none fails.
    fn are_read(&mut self, rest: &str) -> anyhow::Result<bool> {
        let (least, status) = rest.split_once(' ').unwrap_or((rest, ""));
        let (least, status) = (least.parse::<u64>()?, status.parse::<u8>()?);
        let input = self.bench.take_input();
        let mut held = self.take_store();
        let mut all = self.status_of(&mut held, input.as_slice(), MOST_CALLS)? == status;
        let whole = Vec::from_slice(self.alloc, self.bench.text())?;
        let mut tried = 0;
        for call in 1..MOST_CALLS {
            let ended = self.status_of(&mut held, input.as_slice(), call)?;
            all &= is_front(self.bench.text(), whole.as_slice());
            if ended != 5 {
                all &= ended == status && self.bench.text() == whole.as_slice();
                break;
            }
            tried = call;
        }
        self.store = held;
        self.bench.settle();
        Ok(all && least <= tried)
    }

    // The status of a run over a store that holds the same as another one, and of which this call fails.
    fn status_of(&mut self, held: &mut MemStore, input: &[u8], call: u64) -> anyhow::Result<u8> {
        let fails = vec![in self.alloc; call; 1]?;
        self.store = MemStore::new(self.alloc, fails, Vec::new(self.alloc));
        if !self.fill_from(held)? {
            return Err(anyhow::anyhow!("the store takes no blobs"));
        }
        self.bench.ask(std::str::from_utf8(input)?, "")?;
        self.bench.answer_over("run", &mut self.store)
    }

    // The store; an empty one stands in its place.
    fn take_store(&mut self) -> MemStore {
        let empty = MemStore::new(self.alloc, Vec::new(self.alloc), Vec::new(self.alloc));
        std::mem::replace(&mut self.store, empty)
    }

    // The store gets all that another one holds. Whether it did.
    fn fill_from(&mut self, held: &mut MemStore) -> anyhow::Result<bool> {
        let mut names = Vec::new(self.alloc);
        let mut all = held.list(&mut names).is_ok();
        for name in &names {
            let Ok(Some(size)) = held.size(name) else {
                return Ok(false);
            };
            let mut bytes = vec![in self.alloc; 0; usize::try_from(size)?]?;
            all &= held.read_at(name, 0, bytes.as_mut_slice()).is_ok();
            all &= self.store.put(name, bytes.as_slice()).is_ok();
        }
        Ok(all)
    }
}

// How the answer to a step begins, by what it comes to.
fn begin_of(kind: u8) -> &'static str {
    match kind {
        b'h' => r#"{"at":"#,
        b'o' => r#"{"blob":"delta-1-2","current":71,"error":20,"found":"#,
        b'm' => r#"{"blob":"delta-1-2","error":30,"name":"OtherModel","type":""#,
        _ => r#"{"ok":"step","tag":"#,
    }
}

// Whether the text is that of a load, of a step of this kind, and of the rows that are live then.
fn is_told(text: &str, kind: u8) -> bool {
    let mut lines = text.lines();
    let loaded = lines.next() == Some(r#"{"ok":"load","tag":71}"#);
    let stepped = lines
        .next()
        .is_some_and(|line| line.starts_with(begin_of(kind)));
    let live = lines.next();
    let stayed = kind == b'k' || live == Some(r#"{"ok":"live","ordinals":[0,1]}"#);
    loaded && stepped && live.is_some() && stayed
}

// Whether a text is whole lines, and the front of another one.
fn is_front(text: &[u8], whole: &[u8]) -> bool {
    whole.starts_with(text) && (text.is_empty() || text.ends_with(b"\n"))
}
