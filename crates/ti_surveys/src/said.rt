//! The statements about an entry, a file or several.

ghost use Rattle.std.specs.Prelude.{◌≡◌, [], ◌∷◌, IfOk, OnOk};
ghost use Rattle.ti_surveys.specs.Told as spec;

use std::alloc::{AllocError, Global};
use ti_grades::Grade;
use ti_verdicts::{Answer, PlacedFault};

/// The statements about an entry, a file or several.
#[derive(Drop)]
pub struct Said {
    /// The lines.
    pub lines: Vec<u8>,
    /// The faults in them that have a place in a source.
    pub places: Vec<PlacedFault>,
    /// The answer of each line.
    pub answers: Vec<Answer>,
    /// The grade of each fault in the lines.
    pub grades: Vec<Grade>,
    /// Whether a session opens on each entry that is asked about.
    pub opened: Vec<bool>,
}

impl Said {
    /// No statements yet.
    pub fn new(alloc: Global) -> Said
        ensures { spec.told_of result ≡ spec.nothing }
    {
        Said {
            lines: Vec::new(alloc),
            places: Vec::new(alloc),
            answers: Vec::new(alloc),
            grades: Vec::new(alloc),
            opened: Vec::new(alloc),
        }
    }

    /// One `line` with this `answer`, in which no fault has a place or a grade; about no session.
    pub fn of_line(alloc: Global, line: Vec<u8>, answer: Answer) -> Result<Said, AllocError>
        ensures { IfOk result (λ said. spec.told_of said
            ≡ record { lines = line.items; places = []; answers = answer ∷ []; opened = [] }) }
    {
        Ok(Said {
            lines: line,
            places: Vec::new(alloc),
            answers: vec![in alloc; answer]?,
            grades: Vec::new(alloc),
            opened: Vec::new(alloc),
        })
    }

    /// Adds the statements of `later`.
    #[tactic(auto, using(crate::proofs::PlaceFacts::placed_append))]
    pub fn add(&mut self, later: Said) -> Result<(), AllocError>
        ensures { OnOk result (spec.told_of self.new
            ≡ spec.followed_by (spec.told_of self.old) (spec.told_of later)) }
    {
        let Said {
            lines,
            mut places,
            answers,
            mut grades,
            mut opened,
        } = later;
        self.lines.extend_from_slice(lines.as_slice())?;
        self.places.append(&mut places)?;
        self.grades.append(&mut grades)?;
        self.opened.append(&mut opened)?;
        self.answers.extend_from_slice(answers.as_slice())
    }
}
