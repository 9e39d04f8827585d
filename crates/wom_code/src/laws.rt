//! The tests of rows say what their relations say, apart from any call.

ghost use Rattle.std.specs.List.{list_all};
ghost use Rattle.std.specs.Prelude.{◌≡◌, ◌↔◌, ◌++◌, ℕ, List, Bool, true, length, drop};
ghost use Rattle.wom_code.specs.Cells.{Carries, IsAbove};
ghost use Rattle.wom_code.specs.Flip.{IsFewest, is_fewest};
ghost use Rattle.wom_code.specs.Plain.{plain_gives};
ghost use Rattle.wom_code.specs.Tests.{is_same, is_above, is_carrying, all_rows};

/// Two rows pass the test where they are one.
pub fn same_rows_are_one()
    ensures { (xs ys : List Bool) → is_same xs ys ≡ true ↔ xs ≡ ys }
{}

/// A row passes the test where each charged cell of the old row is charged in it.
pub fn rows_above_keep_each_charge()
    ensures { (new old : List Bool) → is_above new old ≡ true ↔ IsAbove new old }
{}

/// A row passes the test where it is above the old one and decodes to the message.
pub fn carrying_rows_decode()
    ensures { (decode : List Bool → List Bool) (old message new : List Bool) → is_carrying decode old message new ≡ true ↔ Carries decode old message new }
{}

/// A test passes on the list of all rows where each row of that many cells passes it.
pub fn all_rows_are_tried()
    ensures { (n : ℕ) (test : List Bool → Bool) → list_all test (all_rows n) ≡ true ↔ ((row : List Bool) → length row ≡ n → test row ≡ true) }
{}

/// The plain code's cells are the message and the old cells after it.
pub fn plain_gives_the_message()
    ensures { (k : ℕ) (old message new : List Bool) → plain_gives k old message new ≡ true ↔ new ≡ message ++ drop k old }
{}

/// The flip code's cells are those of its two results that it must take.
pub fn flip_gives_the_fewest()
    ensures { (k : ℕ) (old message new : List Bool) → is_fewest k old message new ≡ true ↔ IsFewest k old message new }
{}
