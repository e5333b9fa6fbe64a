// The text of each line.
ghost use Rattle.std.specs.Prelude.{◌≡◌, ◌+◌, ◌≤◌, ◌++◌, length};
ghost use Rattle.duty_log.specs.Lines.{tick_bytes, miss_bytes, end_bytes, numbered_bytes, bytes_of, outcome_bytes, answer_bytes, longest};

use crate::line::{End, Line, Miss, Numbered, Outcome, Tick};
use crate::logged::Logged;
use crate::refusal::StepRefusal;
use crate::text::Text;

// The first line of every log: the names of a tick line's fields.
const HEAD: &[u8] = b"tick task job left event\n";

impl Text {
    // Adds a tick line.
    fn tick(&mut self, tick: Tick)
        requires { length self.old + 46 ≤ longest }
        ensures bytes { self.new ≡ self.old ++ tick_bytes tick }
        ensures len { length self.new ≤ length self.old + 46 }
    {
        self.field(tick.clock, b' ');
        self.field(tick.task, b' ');
        self.field(tick.job, b' ');
        self.field(tick.left, b' ');
        self.append(&[tick.event.letter(), b'\n']);
    }

    // Adds a miss line.
    fn miss(&mut self, miss: Miss)
        requires { length self.old + 27 ≤ longest }
        ensures { self.new ≡ self.old ++ miss_bytes miss }
    {
        self.append(b"miss ");
        self.field(miss.task, b' ');
        self.field(miss.job, b'\n');
    }

    // Adds a line of plain numbers.
    fn numbered(&mut self, line: Numbered)
        requires { length self.old + 41 ≤ longest }
        ensures { self.new ≡ self.old ++ numbered_bytes line }
    {
        match line {
            Numbered::Verdict(number) => {
                self.append(b"verdict ");
                self.field(number, b'\n');
            }
            Numbered::Sheet { number, layer, row } => {
                self.append(b"sheet ");
                self.field(number, b' ');
                self.field(layer, b' ');
                self.field(row, b'\n');
            }
            Numbered::Refused(number) => {
                self.append(b"refused ");
                self.field(number, b'\n');
            }
        }
    }

    // Adds the last line.
    fn end(&mut self, end: End)
        requires { length self.old + 48 ≤ longest }
        ensures { self.new ≡ self.old ++ end_bytes end }
    {
        self.append(b"end ");
        self.field(end.clock, b' ');
        self.field(end.idle, b' ');
        self.field(end.begun, b' ');
        self.field(end.interruptions, b'\n');
    }
}

impl Logged for Numbered {
    ghost bytes = { numbered_bytes };

    fn text(&self) -> Text {
        let mut text = Text::new();
        text.numbered(*self);
        text
    }
}

impl Logged for Line {
    ghost bytes = { bytes_of };

    fn text(&self) -> Text {
        let mut text = Text::new();
        match *self {
            Line::Head => text.append(HEAD),
            Line::Verdict(verdict) => text.numbered(Numbered::Verdict(verdict.number())),
            Line::Sheet(fault) => text.numbered(Numbered::Sheet {
                number: fault.number(),
                layer: fault.layer().number(),
                row: fault.row().unwrap_or(0),
            }),
            Line::Tick(tick) => text.tick(tick),
            Line::Miss(miss) => text.miss(miss),
            Line::Refused(refusal) => text.numbered(Numbered::Refused(refusal.number())),
            Line::End(end) => text.end(end),
        }
        text
    }
}

impl Logged for Outcome {
    ghost bytes = { outcome_bytes };

    fn text(&self) -> Text {
        let mut text = Text::new();
        text.tick(self.tick);
        if let Some(miss) = self.miss {
            text.miss(miss);
        }
        text
    }
}

impl Logged for Result<Outcome, StepRefusal> {
    ghost bytes = { answer_bytes };

    fn text(&self) -> Text {
        match self {
            Ok(outcome) => outcome.text(),
            Err(refusal) => Line::Refused(*refusal).text(),
        }
    }
}
