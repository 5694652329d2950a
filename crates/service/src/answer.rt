// An answer as it is printed: letter, board, sign, number and value.
ghost use Rattle.std.specs.Prelude.{◌≡◌, Some};
ghost use Rattle.std.specs.Fmt.{padded};
ghost use Rattle.service.specs.Answers.{of_ask, of_pull, of_step, printed};
ghost use Rattle.service.specs.Names.{letter_name, sign_name};

use crate::progress::Progress;
use crate::refusal::Refusal;
use std::fmt;

// The letter of an ask, a step or a pull.
#[derive(Clone, Copy)]
pub enum Letter {
    A,
    S,
    P,
}

impl fmt::Display for Letter {
    ghost output = { λ letter. Some (letter_name letter) };

    ghost styled_output = { λ letter spec. Some (padded spec (letter_name letter)) };

    fn fmt<W: fmt::Write>(&self, f: &mut fmt::Formatter<W>) -> fmt::Result {
        f.pad(match self {
            Letter::A => "A",
            Letter::S => "S",
            Letter::P => "P",
        })
    }
}

// Plus for an answer, minus for a refusal.
#[derive(Clone, Copy)]
pub enum Sign {
    Plus,
    Minus,
}

impl fmt::Display for Sign {
    ghost output = { λ sign. Some (sign_name sign) };

    ghost styled_output = { λ sign spec. Some (padded spec (sign_name sign)) };

    fn fmt<W: fmt::Write>(&self, f: &mut fmt::Formatter<W>) -> fmt::Result {
        f.pad(match self {
            Sign::Plus => "+",
            Sign::Minus => "-",
        })
    }
}

// An answer is kept as it is printed, so the sign stands beside the number. The board is the one that was named, and the number
// the answer's or the refusal's. The value is the set of boards ahead for an accepted ask, the number shown for an answer 4, and
// else 0.
#[derive(Clone, Copy)]
pub struct Answer {
    pub letter: Letter,
    pub board: u8,
    pub sign: Sign,
    pub number: u8,
    pub value: i64,
}

impl Answer {
    // The answer to a call that is told by a number and a value, or refused.
    fn printed(letter: Letter, board: u8, told: Result<(u8, i64), Refusal>) -> Answer
        ensures { result ≡ printed letter board told }
    {
        let (sign, number, value) = match told {
            Ok((number, value)) => (Sign::Plus, number, value),
            Err(refusal) => (Sign::Minus, u8::from(refusal), 0),
        };
        Answer {
            letter,
            board,
            sign,
            number,
            value,
        }
    }

    // The answer to an ask.
    pub fn of_ask(board: u8, told: Result<u32, Refusal>) -> Answer
        ensures { result ≡ of_ask board told }
    {
        Answer::printed(Letter::A, board, told.map(|ahead| (0, i64::from(ahead))))
    }

    // The answer to a step.
    pub fn of_step(board: u8, told: Result<Progress, Refusal>) -> Answer
        ensures { result ≡ of_step board told }
    {
        Answer::printed(
            Letter::S,
            board,
            told.map(|progress| (u8::from(progress), progress.value())),
        )
    }

    // The answer to a pull.
    pub fn of_pull(board: u8, told: Result<(), Refusal>) -> Answer
        ensures { result ≡ of_pull board told }
    {
        Answer::printed(Letter::P, board, told.map(|()| (0, 0)))
    }
}
