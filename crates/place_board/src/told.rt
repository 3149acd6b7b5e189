use std::marker::Brand;

// What a step on a word is told beside the word: the step itself sees numbers and views alone. A call picks it in its
// proof, and nothing of it exists at run time.
pub trait Told {
    ghost use Rattle.place_board.specs.declared.view.Known.{Known};

    ghost known: { Known };
}

impl Told for Brand {
    ghost use Rattle.std.specs.Prelude.{[], None};

    ghost known = { record { number = 0; service = 0; index = 0; span = record { left = []; right = None } } };
}
