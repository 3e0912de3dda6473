//! What a user of the program waits for.

use crate::carrying::Answers;
use std::alloc::{AllocError, Global};
use wc_canon::Job;
use wc_cli::Ask;
use wc_drawn::{
    Draws, Fault, Kind, Library, Plan, Row, Shapes, Sheet, Style, put_module, put_names,
    put_names_text, put_row_text, put_rows, put_text,
};

/// The sizes of the modules that a build makes, in bytes; the kinds take turns.
static SIZES: [u32; 20] = [
    1000, 300_000, 4000, 30_000, 2000, 90_000, 12_000, 1_000_000, 7000, 150_000, 1500, 50_000,
    20_000, 500_000, 3000, 200_000, 10_000, 700_000, 40_000, 5000,
];

static KINDS: [Kind; 8] = [
    Kind::Compiled,
    Kind::Compiled,
    Kind::Script,
    Kind::Compiled,
    Kind::Object,
    Kind::Compiled,
    Kind::Data,
    Kind::Compiled,
];

static STYLES: [Style; 3] = [Style::Flat, Style::Folded, Style::Named];

/// The kind of the module of a turn.
fn kind_of(turn: u32) -> Kind {
    KINDS[turn as usize % 8]
}

/// Its size.
fn size_of(turn: u32) -> u32 {
    SIZES[turn as usize % 20]
}

/// The style of its text.
fn style_of(turn: u32) -> Style {
    STYLES[turn as usize % 3]
}

/// How many copies of a row make some 500,000 bytes, and some more.
fn copies_of(row: &Row, turn: u32) -> u32 {
    let copies = u32::try_from(500_000 / row.bytes.len().max(1)).unwrap_or(1);
    copies.saturating_add(turn % 5 + 1)
}

/// Where inputs are made, and what was answered of them.
#[derive(Drop)]
pub struct Desk {
    alloc: Global,
    draws: Draws,
    library: Library,
    input: Sheet,
    other: Sheet,
    pub answers: Answers,
}

impl Desk {
    /// A desk with the library of a seed.
    pub fn new(alloc: Global, seed: u64) -> Result<Desk, AllocError> {
        let mut draws = Draws::new(seed);
        let library = Library::new(alloc, &mut draws)?;
        Ok(Desk {
            alloc,
            draws,
            library,
            input: Sheet::new(alloc),
            other: Sheet::new(alloc),
            answers: Answers::new(),
        })
    }

    fn plan(&mut self, kind: Kind, size: u32) -> Result<Plan, AllocError> {
        Plan::new(self.alloc, &mut self.draws, kind, size)
    }

    /// Puts the bytes of a plan into the first input.
    fn put_input(&mut self, plan: &Plan) {
        self.input.clear();
        put_module(self.alloc, &mut self.input, &self.library, plan);
    }

    /// Puts the bytes of a plan into the second input.
    fn put_other(&mut self, plan: &Plan) {
        self.other.clear();
        put_module(self.alloc, &mut self.other, &self.library, plan);
    }

    /// An error where memory for one of the inputs was refused.
    fn check_both(&self) -> Result<(), AllocError> {
        self.input.check()?;
        self.other.check()
    }

    /// Makes the next input as bytes.
    fn lay_binary(&mut self, kind: Kind, size: u32) -> Result<(), AllocError> {
        let plan = self.plan(kind, size)?;
        self.put_input(&plan);
        self.input.check()
    }

    /// Makes the next input as a text.
    fn lay_text(&mut self, kind: Kind, size: u32, style: Style) -> Result<(), AllocError> {
        let plan = self.plan(kind, size)?;
        self.input.clear();
        put_text(&mut self.input, style, &self.library, &plan);
        self.input.check()
    }

    /// Makes two inputs of one module: its bytes, and other bytes of it.
    fn lay_pair(&mut self, kind: Kind, size: u32) -> Result<(), AllocError> {
        let mut plan = self.plan(kind, size)?;
        self.put_input(&plan);
        plan.padded = true;
        plan.mark = plan.mark.wrapping_add(1);
        self.put_other(&plan);
        self.check_both()
    }

    /// Makes two inputs whose last function differs.
    fn lay_unlike(&mut self, kind: Kind, size: u32) -> Result<(), AllocError> {
        let mut plan = self.plan(kind, size)?;
        self.put_input(&plan);
        if let Some(last) = plan.picks.last_mut() {
            *last = if *last == 0 { 1 } else { *last - 1 };
        }
        self.put_other(&plan);
        self.check_both()
    }

    /// Makes the bytes and the text of one module.
    fn lay_both(&mut self, kind: Kind, size: u32, style: Style) -> Result<(), AllocError> {
        let plan = self.plan(kind, size)?;
        self.put_input(&plan);
        self.other.clear();
        put_text(&mut self.other, style, &self.library, &plan);
        self.check_both()
    }

    /// Writes what a job makes of the input.
    fn make(&mut self, job: Job) {
        self.answers.make(self.alloc, job, self.input.as_slice());
    }

    /// Tells what is asked of the input.
    fn tell(&mut self, ask: Ask) {
        self.answers.tell(self.alloc, ask, self.input.as_slice());
    }

    /// Makes an input of a kind, as bytes or as a text in a style, and tells it.
    pub fn sample(&mut self, kind: &str, style: &str, size: u32) -> Result<&[u8], AllocError> {
        let kind = match kind {
            "script" => Kind::Script,
            "object" => Kind::Object,
            "data" => Kind::Data,
            _ => Kind::Compiled,
        };
        let laid = match style {
            "flat" => self.lay_text(kind, size, Style::Flat),
            "folded" => self.lay_text(kind, size, Style::Folded),
            "named" => self.lay_text(kind, size, Style::Named),
            _ => self.lay_binary(kind, size),
        };
        laid?;
        Ok(self.input.as_slice())
    }

    /// The next key.
    fn key(&mut self, turn: u32) -> Result<(), AllocError> {
        self.lay_binary(kind_of(turn), size_of(turn))?;
        if turn % 4 == 3 {
            self.make(Job::Binary);
        } else {
            self.tell(Ask::Hash);
        }
        Ok(())
    }

    /// Keys of a cache, sums, signatures: `hash` and `binary` of what a build made.
    pub fn keys(&mut self, amount: u32) -> Result<(), AllocError> {
        for turn in 0..amount {
            self.key(turn)?;
        }
        if amount >= 100 {
            self.lay_binary(Kind::Compiled, 10_000_000)?;
            self.tell(Ask::Hash);
        }
        Ok(())
    }

    /// Makes the next input of the gate as bytes. One in sixteen is spoilt: early, by its version, or late, where its
    /// last body ends or by the count of its data.
    fn lay_gated(&mut self, turn: u32) -> Result<(), AllocError> {
        let mut plan = self.plan(kind_of(turn), size_of(turn))?;
        plan.fault = match turn % 64 {
            5 | 37 => Some(Fault::Version),
            53 if plan.chunks > 0 => Some(Fault::DataCount),
            21 | 53 => Some(Fault::LastEnd),
            _ => None,
        };
        self.put_input(&plan);
        self.input.check()
    }

    /// Judges the next input.
    fn judge(&mut self, turn: u32) -> Result<(), AllocError> {
        self.lay_gated(turn)?;
        if turn % 3 == 2 {
            self.tell(Ask::Canonical);
        } else {
            self.tell(Ask::Check);
        }
        Ok(())
    }

    /// Compares what two builds made.
    fn compare(&mut self, turn: u32) -> Result<(), AllocError> {
        let kind = kind_of(turn);
        let laid = match turn % 4 {
            3 => self.lay_both(kind, 150_000, style_of(turn / 4)),
            1 => self.lay_unlike(kind, 1_000_000),
            _ => self.lay_pair(kind, 1_000_000),
        };
        laid?;
        self.answers
            .compare(self.alloc, self.input.as_slice(), self.other.as_slice());
        Ok(())
    }

    /// A gate before a merge: `check` and `canonical` of many files, and `compare` of what two builds made.
    pub fn gate(&mut self, amount: u32) -> Result<(), AllocError> {
        for turn in 0..amount {
            self.judge(turn)?;
        }
        for turn in 0..amount / 20 {
            self.compare(turn)?;
        }
        Ok(())
    }

    /// A build from text: `binary` of texts, flat, folded and by hand.
    pub fn build(&mut self, amount: u32) -> Result<(), AllocError> {
        for turn in 0..amount {
            self.lay_text(kind_of(turn), size_of(turn) / 2, style_of(turn))?;
            self.make(Job::Binary);
        }
        if amount >= 40 {
            self.lay_text(Kind::Compiled, 4_000_000, Style::Flat)?;
            self.make(Job::Binary);
        }
        Ok(())
    }

    /// A reviewer's diff: `text` of binaries, small ones and large ones.
    pub fn review(&mut self, amount: u32) -> Result<(), AllocError> {
        for turn in 0..amount {
            self.lay_binary(kind_of(turn), size_of(turn))?;
            self.make(Job::Text);
        }
        if amount >= 100 {
            self.lay_binary(Kind::Compiled, 10_000_000)?;
            self.make(Job::Text);
        }
        Ok(())
    }

    /// Makes what the next call over memory is given.
    fn lay_small(&mut self, turn: u32) -> Result<(), AllocError> {
        let kind = kind_of(turn);
        let size = 400 + size_of(turn) % 10_000;
        match turn % 8 {
            4 => self.lay_text(kind, size, style_of(turn)),
            7 => self.lay_pair(kind, size),
            _ => self.lay_binary(kind, size),
        }
    }

    /// The next call over memory.
    fn call(&mut self, turn: u32) -> Result<(), AllocError> {
        self.lay_small(turn)?;
        let input = self.input.as_slice();
        match turn % 8 {
            1 => self.answers.print_in_memory(self.alloc, input),
            2 => self.answers.accept_in_memory(self.alloc, input),
            6 => self.answers.judge_in_memory(self.alloc, input),
            7 => self
                .answers
                .compare_in_memory(self.alloc, input, self.other.as_slice()),
            _ => self.answers.normalise_in_memory(self.alloc, input),
        }
        Ok(())
    }

    /// From a build system's process: the calls over memory on small modules, a great many times.
    pub fn calls(&mut self, amount: u32) -> Result<(), AllocError> {
        for turn in 0..amount {
            self.call(turn)?;
        }
        Ok(())
    }

    /// Hands a module of copies of a row to `binary`, another to `check`, and another to `text`.
    fn carry_row(&mut self, row: &Row, turn: u32) -> Result<(), AllocError> {
        let mark = self.draws.next();
        self.input.clear();
        let copies = copies_of(row, turn);
        put_rows(self.alloc, &mut self.input, row, copies, mark);
        self.input.check()?;
        match turn % 3 {
            0 => self.make(Job::Binary),
            1 => self.tell(Ask::Check),
            _ => self.make(Job::Text),
        }
        Ok(())
    }

    /// Hands a text of copies of a row to `binary`.
    fn carry_text(&mut self, row: &Row, turn: u32) -> Result<(), AllocError> {
        let mark = self.draws.next();
        self.input.clear();
        put_row_text(&mut self.input, row, copies_of(row, turn), mark);
        self.input.check()?;
        self.make(Job::Binary);
        Ok(())
    }

    /// Hands modules of many names to `binary`, as bytes and as text.
    fn carry_names(&mut self, count: u32, turn: u32) -> Result<(), AllocError> {
        let first = turn.wrapping_mul(count);
        let seed = self.draws.next();
        self.input.clear();
        put_names(self.alloc, &mut self.input, seed, first, count);
        self.input.check()?;
        self.make(Job::Binary);
        self.input.clear();
        put_names_text(&mut self.input, seed, first, count);
        self.input.check()?;
        self.make(Job::Binary);
        Ok(())
    }

    /// Hands on one of each shape.
    fn carry_shapes(&mut self, shapes: &Shapes, turn: u32) -> Result<(), AllocError> {
        self.carry_row(&shapes.tiny, turn)?;
        self.carry_row(&shapes.nested, turn)?;
        self.carry_row(&shapes.tables, turn)?;
        self.carry_row(&shapes.constants, turn)?;
        self.carry_row(&shapes.padded, turn)?;
        self.carry_text(&shapes.tiny_texts, turn)?;
        self.carry_text(&shapes.deep_texts, turn)?;
        self.lay_text(Kind::Data, 200_000, Style::Flat)?;
        self.make(Job::Binary);
        self.carry_names(5000, turn)
    }

    fn carry_all(&mut self, shapes: &Shapes, amount: u32) -> Result<(), AllocError> {
        for turn in 0..amount {
            self.carry_shapes(shapes, turn)?;
        }
        Ok(())
    }

    /// Awkward shapes.
    pub fn awkward(&mut self, amount: u32) -> Result<(), AllocError> {
        let shapes = Shapes::new(self.alloc, &mut self.draws);
        self.carry_all(&shapes, amount)
    }
}
