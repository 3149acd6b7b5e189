use std::marker::Brand;

// What a step on a word is told beside the word: the step itself sees numbers and views alone. A call picks it in its
// proof, and nothing of it exists at run time.
pub trait Told<E> {
    ghost use Rattle.std.specs.Prelude.{ℕ, List};

    ghost entries: { List E };

    ghost session: { ℕ };

    ghost number: { ℕ };

    ghost time: { ℕ };
}

impl<E> Told<E> for Brand {
    ghost use Rattle.std.specs.Prelude.{[]};

    ghost entries = { [] };

    ghost session = { 0 };

    ghost number = { 0 };

    ghost time = { 0 };
}
