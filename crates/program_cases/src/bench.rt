//! The lines of a case over one blob: what it holds, what is run on it, and what that writes.
//!
//! | line | what it says |
//! |---|---|
//! | `blob PIECES` | the store holds the bytes of these pieces as snapshot-1 |
//! | `types PIECES` | and so it does of a header without schemas and tags, and these pieces |
//! | `more PIECES` | and behind them those of these |
//! | `fill N PIECE` | and behind them this piece so many times |
//! | `input TEXT`, `last TEXT` | the input of the next run goes on with this line, or with this text |
//! | `again N TEXT` | and it goes on with this text so many times |
//! | `each N TEXT`, `lines N TEXT` | the same with this text or this line, each time with its number, from 0 on, in place of the `#` in it |
//! | `calls N..`, `piece N` | in the next run these calls of the source fail, or it gives so many bytes a call |
//! | `reads N..`, `writes N..`, `room N` | in the next run these calls of the store or of the sink fail, or the sink takes so much |
//! | `run STATUS WORDS` | the words of a command line end with this status |
//! | `zeros N STATUS WORDS` | the same over a store whose every name has so many bytes, all 0 |
//! | `out TEXT`, `part TEXT` | and what they write is this line, or ends in this front of one |
//! | `outs N TEXT` | and it is this line so many times, each time with its number in place of the `#` in it |
//! | `size N` | and what they write has so many bytes |
//! | `stuck N REASON` | `head` and `show` refuse the header: its item at this offset, for this reason |
//! | `differs TEXT` | `show` ends well for the blob, and writes this line of a refusal for its faulty twin |
//!
//! A piece is a run of hexadecimal digits or, behind a quote, a text with the length in front that a blob gives it. A
//! piece `a/b` is `a` in the blob, and `b` in its faulty twin. What was written is judged at the next `run`, and at the end.
use crate::pieces::{numbered, put_numbers, put_piece, words_of};
use crate::setting::Setting;
use crate::zeros::ZeroStore;
use hol_io::{BlobName, BlobStore};
use hol_memory::MemStore;
use hollow_top::{Keep, Silent, run};
use std::alloc::Global;

/// The format, an origin tag 0, a destination tag 71, an envelope without schemas, and no tags.
const HEADER: &str = "00000406 0000000000000000 0000000000000047 00 0000";

/// What the cases are run on.
#[derive(Drop)]
pub struct Bench {
    alloc: Global,
    /// The blob, and its faulty twin.
    blobs: (Vec<u8>, Vec<u8>),
    /// What the next run has.
    next: Setting,
    /// What the last run wrote, and what it is to have written.
    texts: (Vec<u8>, Vec<u8>),
}

impl Bench {
    /// A bench whose blob is empty.
    pub fn new(alloc: Global) -> Bench {
        Bench {
            alloc,
            blobs: (Vec::new(alloc), Vec::new(alloc)),
            next: Setting::new(alloc),
            texts: (Vec::new(alloc), Vec::new(alloc)),
        }
    }

    /// Whether a line of a case holds.
    pub fn step(&mut self, line: &str) -> anyhow::Result<bool> {
        let (word, rest) = line.split_once(' ').unwrap_or((line, ""));
        match word.as_bytes() {
            b"blob" => self.begin(rest),
            b"types" => Ok(self.begin(HEADER)? && self.add(rest)?),
            b"more" => self.add(rest),
            b"fill" => self.fill(rest),
            b"input" => self.ask(rest, "\n"),
            b"last" => self.ask(rest, ""),
            b"again" => self.ask_again(rest),
            b"each" => self.ask_each(rest, ""),
            b"lines" => self.ask_each(rest, "\n"),
            b"run" => self.run(rest),
            b"zeros" => self.run_zeros(rest),
            b"out" => self.want(rest, "\n"),
            b"outs" => self.want_each(rest, "\n"),
            b"part" => self.want(rest, ""),
            b"size" => self.measure(rest),
            b"stuck" => self.stuck(rest),
            b"differs" => self.differs(rest),
            _ => self.arrange(word, rest),
        }
    }

    /// Whether what was written is what was to be written.
    pub fn is_settled(&self) -> bool {
        self.texts.0.as_slice() == self.texts.1.as_slice()
    }

    // A blob begins.
    fn begin(&mut self, pieces: &str) -> anyhow::Result<bool> {
        self.blobs.0.clear();
        self.blobs.1.clear();
        self.add(pieces)
    }

    // The blob goes on.
    fn add(&mut self, pieces: &str) -> anyhow::Result<bool> {
        for piece in pieces.split_whitespace() {
            let (sound, faulty) = piece.split_once('/').unwrap_or((piece, piece));
            put_piece(self.alloc, sound, &mut self.blobs.0)?;
            put_piece(self.alloc, faulty, &mut self.blobs.1)?;
        }
        Ok(true)
    }

    // The blob goes on with a piece so many times.
    fn fill(&mut self, rest: &str) -> anyhow::Result<bool> {
        let (count, piece) = rest.split_once(' ').unwrap_or((rest, ""));
        for _time in 0..count.parse::<u32>()? {
            self.add(piece)?;
        }
        Ok(true)
    }

    /// The next run is to write this line.
    pub fn expect(&mut self, text: &str) -> anyhow::Result<bool> {
        self.next.wanted.extend_from_slice(text.as_bytes())?;
        self.next.wanted.push(b'\n')?;
        Ok(true)
    }

    /// The input goes on with a text and its end.
    pub fn ask(&mut self, text: &str, end: &str) -> anyhow::Result<bool> {
        self.next.input.extend_from_slice(text.as_bytes())?;
        self.next.input.extend_from_slice(end.as_bytes())?;
        Ok(true)
    }

    // The input goes on with a text so many times.
    fn ask_again(&mut self, rest: &str) -> anyhow::Result<bool> {
        let (count, text) = rest.split_once(' ').unwrap_or((rest, ""));
        for _time in 0..count.parse::<u32>()? {
            self.ask(text, "")?;
        }
        Ok(true)
    }

    // The input goes on with a text so many times, each time with its number.
    fn ask_each(&mut self, rest: &str, end: &str) -> anyhow::Result<bool> {
        let text = numbered(self.alloc, rest, end)?;
        self.ask(text.as_str(), "")
    }

    // A text is to have been written so many times, each time with its number.
    fn want_each(&mut self, rest: &str, end: &str) -> anyhow::Result<bool> {
        let text = numbered(self.alloc, rest, end)?;
        self.want(text.as_str(), "")
    }

    // What fails in the next run. Other words say nothing.
    fn arrange(&mut self, word: &str, rest: &str) -> anyhow::Result<bool> {
        match word.as_bytes() {
            b"calls" => put_numbers(rest, &mut self.next.calls)?,
            b"piece" => self.next.piece = rest.parse::<usize>()?,
            b"reads" => put_numbers(rest, &mut self.next.reads)?,
            b"writes" => put_numbers(rest, &mut self.next.writes)?,
            b"room" => self.next.room = rest.parse::<usize>()?,
            _ => return Ok(word.is_empty() || word.starts_with('#')),
        }
        Ok(true)
    }

    // A command line is run on the blob.
    fn run(&mut self, rest: &str) -> anyhow::Result<bool> {
        let (status, words) = rest.split_once(' ').unwrap_or((rest, ""));
        let settled = self.is_settled();
        let blob = self.blob()?;
        let ended = self.answer(words, blob.as_slice())?;
        Ok(settled && ended == status.parse::<u8>()?)
    }

    // A command line is run over zeros.
    fn run_zeros(&mut self, rest: &str) -> anyhow::Result<bool> {
        let (size, rest) = rest.split_once(' ').unwrap_or((rest, ""));
        let (status, words) = rest.split_once(' ').unwrap_or((rest, ""));
        let settled = self.is_settled();
        let mut store = ZeroStore::new(size.parse::<u64>()?);
        let ended = self.answer_over(words, &mut store)?;
        Ok(settled && ended == status.parse::<u8>()?)
    }

    /// The blob of the case.
    pub fn blob(&self) -> anyhow::Result<Vec<u8>> {
        Ok(Vec::from_slice(self.alloc, self.blobs.0.as_slice())?)
    }

    /// The blob of the case with its fault.
    pub fn faulty_blob(&self) -> anyhow::Result<Vec<u8>> {
        Ok(Vec::from_slice(self.alloc, self.blobs.1.as_slice())?)
    }

    /// The status of a command line over a store that holds this blob. What it wrote is kept.
    pub fn answer(&mut self, words: &str, blob: &[u8]) -> anyhow::Result<u8> {
        let reads = Vec::from_slice(self.alloc, self.next.reads.as_slice())?;
        let mut store = MemStore::new(self.alloc, reads, Vec::new(self.alloc));
        store
            .put(&BlobName::Snapshot(1), blob)
            .map_err(|_| anyhow::anyhow!("the store takes no blob"))?;
        self.answer_over(words, &mut store)
    }

    /// The status of a command line over any store. What it wrote is kept.
    pub fn answer_over<S: BlobStore>(&mut self, words: &str, store: &mut S) -> anyhow::Result<u8> {
        let line = words_of(self.alloc, words)?;
        let mut input = self.next.source(self.alloc)?;
        let mut out = self.next.sink(self.alloc)?;
        let mut keep = Keep::new(self.alloc);
        let status = run(
            self.alloc,
            line.as_slice(),
            &mut input,
            &mut out,
            store,
            &mut keep,
            &mut Silent,
        );
        let written = Vec::from_slice(self.alloc, out.bytes())?;
        let last = std::mem::replace(&mut self.next, Setting::new(self.alloc));
        self.texts = (written, last.wanted);
        Ok(status)
    }

    /// What the last run wrote.
    pub fn text(&self) -> &[u8] {
        self.texts.0.as_slice()
    }

    /// More is to have been written.
    pub fn want(&mut self, text: &str, end: &str) -> anyhow::Result<bool> {
        self.texts.1.extend_from_slice(text.as_bytes())?;
        self.texts.1.extend_from_slice(end.as_bytes())?;
        Ok(true)
    }

    /// What was written last is what was to be written.
    pub fn settle(&mut self) {
        self.texts.0.clear();
        self.texts.1.clear();
    }

    /// The input of the next run so far. It is taken away.
    pub fn take_input(&mut self) -> Vec<u8> {
        std::mem::replace(&mut self.next.input, Vec::new(self.alloc))
    }

    // So many bytes are to have been written.
    fn measure(&mut self, rest: &str) -> anyhow::Result<bool> {
        self.texts.1 = Vec::from_slice(self.alloc, self.texts.0.as_slice())?;
        Ok(self.texts.0.len() == rest.parse::<usize>()?)
    }

    // The header is refused by both commands.
    fn stuck(&mut self, rest: &str) -> anyhow::Result<bool> {
        let (at, reason) = rest.split_once(' ').unwrap_or((rest, ""));
        let blob = self.blob()?;
        let line = format!(in self.alloc;
            "{{\"at\":{at},\"blob\":\"snapshot-1\",\"error\":19,\"name\":\"BadBlob\",\"reason\":{reason}}}\n"
        )?;
        for words in ["head snapshot-1", "show snapshot-1"] {
            if self.answer(words, blob.as_slice())? != 1 || self.text() != line.as_bytes() {
                return Ok(false);
            }
        }
        self.want(line.as_str(), "")
    }

    // The blob is shown, and its twin is refused with this line.
    fn differs(&mut self, line: &str) -> anyhow::Result<bool> {
        let sound = self.blob()?;
        let faulty = self.faulty_blob()?;
        let shown = self.answer("show snapshot-1", sound.as_slice())?;
        let refused = self.answer("show snapshot-1", faulty.as_slice())?;
        self.want(line, "\n")?;
        Ok(shown == 0 && refused == 1 && self.is_settled())
    }
}
