// Answers as document 01's table of refusals numbers them, and the errors that stand in it.
// To read it: `specs/Numbered.antt` has an answer, accepted with a value or refused with a number and its values, checks in
// order, what a refusal leaves, and the answer that a `Result` is; `proofs/Checks.antt` what a check makes of an answer.
#![tactic(auto)]

ghost use Rattle.std.specs.Prelude.{◌≡◌};
ghost use Rattle.refusals.specs.Numbered.{Row};

// An error that the table of refusals has.
pub trait Refusal {
    // Its row of the table.
    ghost row: { Self → Row };

    // Its number in the table.
    fn number(&self) -> u8
        ensures { result ≡ (row self.now).number };
}
