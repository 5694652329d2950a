// A line: driven by one board, read by the others, and in change for one step of its board.
#![tactic(auto)]

ghost use Rattle.std.specs.Prelude.{◌≡◌, true, false, Some};
ghost use Rattle.std.specs.Fmt.{padded};
ghost use Rattle.line.specs.Names.{line_name};
ghost use Rattle.line.specs.Rule.{begun, changed, ended, heading, level, moving, opposite, reading, resting};

use std::fmt;
use std::ops::Not;

// What a line at rest has, and what a reading gives.
#[derive(Clone, Copy, PartialEq, Eq, Debug)]
pub enum Level {
    Low,
    High,
}

// What a bit says of a line in change.
impl From<bool> for Level {
    ghost from_gives = { λ bit result. result ≡ level bit };

    fn from(bit: bool) -> Level {
        if bit { Level::High } else { Level::Low }
    }
}

// The other level.
impl Not for Level {
    type Output = Level;

    ghost not_gives = { λ level other. other ≡ opposite level };

    fn not(self) -> Level {
        match self {
            Level::Low => Level::High,
            Level::High => Level::Low,
        }
    }
}

// A line at rest, or in change: rising to high or falling to low. Every line is low at first.
#[derive(Clone, Copy, PartialEq, Eq, Debug)]
pub enum Line {
    Low,
    Rising,
    High,
    Falling,
}

impl fmt::Display for Line {
    ghost output = { λ line. Some (line_name line) };

    ghost styled_output = { λ line spec. Some (padded spec (line_name line)) };

    fn fmt<W: fmt::Write>(&self, f: &mut fmt::Formatter<W>) -> fmt::Result {
        f.pad(match self {
            Line::Low => "low",
            Line::Rising => "rising",
            Line::High => "high",
            Line::Falling => "falling",
        })
    }
}

impl Line {
    // Whether the line is in change.
    pub fn in_change(self) -> bool
        ensures { result ≡ moving self }
    {
        matches!(self, Line::Rising | Line::Falling)
    }

    // A reading: what the step's bit says where the line is in change, else the line's level.
    pub fn read(self, bit: bool) -> Level
        ensures gives { result ≡ reading self bit }
        ensures caught { moving self ≡ true → result ≡ level bit }
        ensures settled { moving self ≡ false → result ≡ heading self }
    {
        match self {
            Line::Low => Level::Low,
            Line::High => Level::High,
            Line::Rising | Line::Falling => Level::from(bit),
        }
    }

    // The level that the line rests at, or is in change to: what its own board knows of it.
    pub fn heading(self) -> Level
        ensures { result ≡ heading self }
    {
        match self {
            Line::Low | Line::Falling => Level::Low,
            Line::Rising | Line::High => Level::High,
        }
    }

    // The first half of a change: the line goes in change to a level, unless it rests there.
    pub fn begin(self, to: Level) -> Line
        ensures gives { result ≡ begun self to }
        ensures unless { self ≡ resting to → result ≡ self }
        ensures leads { ended result ≡ resting to }
    {
        match (self, to) {
            (Line::Low, Level::Low) => Line::Low,
            (Line::High, Level::High) => Line::High,
            (_, Level::High) => Line::Rising,
            (_, Level::Low) => Line::Falling,
        }
    }

    // The second half of a change: the line rests at the level that it was in change to.
    pub fn end(self) -> Line
        ensures gives { result ≡ ended self }
        ensures rests { moving result ≡ false }
    {
        match self.heading() {
            Level::Low => Line::Low,
            Level::High => Line::High,
        }
    }

    // One half of a change to a level: the second where the line is in change, else the first.
    pub fn change(self, to: Level) -> Line
        ensures { result ≡ changed self to }
    {
        if self.in_change() {
            self.end()
        } else {
            self.begin(to)
        }
    }
}
