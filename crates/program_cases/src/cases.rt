//! The cases of a file, one behind another, and the models that they name.
//!
//! Beside the lines of `scene` and `bench` there are these:
//!
//! | line | what it says |
//! |---|---|
//! | `case TITLE` | a case begins: the store and the blob are empty |
//! | `model NAME TEXT` | from here on, in this file and those behind it, `> @NAME` stands for the order TEXT |
//! | `> TEXT` | the input of the next run goes on with this order |
//! | `< TEXT` | and the run answers it with this line |
//!
//! An empty line, and one that begins with `#`, says nothing.
use crate::scene::Scene;
use std::alloc::Global;

/// The words of the lines that run a command, or many of one kind.
const COMMANDS: [&str; 11] = [
    "run", "go", "zeros", "stuck", "differs", "moves", "cuts", "bits", "turned", "fronts",
    "readings",
];

/// What cases are judged with.
#[derive(Drop)]
pub struct Cases {
    alloc: Global,
    /// The scene of the case that runs.
    scene: Scene,
    /// The title of that case.
    title: String,
    /// The models by their names.
    models: Vec<(String, String)>,
    /// How many lines ran a command.
    judged: u64,
}

impl Cases {
    /// No models, and no case that has begun.
    pub fn new(alloc: Global) -> Cases {
        Cases {
            alloc,
            scene: Scene::new(alloc),
            title: String::new(alloc),
            models: Vec::new(alloc),
            judged: 0,
        }
    }

    /// How many lines that run a command were judged so far.
    pub fn count(&self) -> u64 {
        self.judged
    }

    /// The title of the case that runs.
    pub fn title(&self) -> &str {
        self.title.as_str()
    }

    /// The number of the first line of a file that does not hold, none where all hold.
    pub fn first_odd(&mut self, text: &str) -> anyhow::Result<Option<usize>> {
        let mut last = 0;
        for (place, line) in text.lines().enumerate() {
            last = place;
            if !self.holds(line)? {
                return Ok(Some(place.saturating_add(1)));
            }
        }
        let settled = self.scene.bench.is_settled();
        self.begin("")?;
        Ok(if settled {
            None
        } else {
            Some(last.saturating_add(1))
        })
    }

    // Whether a line holds.
    fn holds(&mut self, line: &str) -> anyhow::Result<bool> {
        let (word, rest) = line.split_once(' ').unwrap_or((line, ""));
        if COMMANDS.contains(&word) {
            self.judged = self.judged.saturating_add(1);
        }
        match word.as_bytes() {
            b"case" => self.begin(rest),
            b"model" => self.keep(rest),
            b">" => self.ask(rest),
            b"<" => self.scene.bench.expect(rest),
            _ => self.scene.step(line),
        }
    }

    // A case begins. Whether the one before it held to its end.
    fn begin(&mut self, title: &str) -> anyhow::Result<bool> {
        let settled = self.scene.bench.is_settled();
        self.scene = Scene::new(self.alloc);
        self.title = String::from_str(self.alloc, title)?;
        Ok(settled)
    }

    // A model is kept by its name.
    fn keep(&mut self, rest: &str) -> anyhow::Result<bool> {
        let (name, text) = rest.split_once(' ').unwrap_or((rest, ""));
        let name = String::from_str(self.alloc, name)?;
        let text = String::from_str(self.alloc, text)?;
        self.models.push((name, text))?;
        Ok(true)
    }

    // The input goes on with an order, or with that of a model. Whether there is such a model.
    fn ask(&mut self, text: &str) -> anyhow::Result<bool> {
        let Some(name) = text.strip_prefix('@') else {
            return self.scene.bench.ask(text, "\n");
        };
        for (known, order) in &self.models {
            if known.as_str() == name {
                return self.scene.bench.ask(order.as_str(), "\n");
            }
        }
        Ok(false)
    }
}
