// What marks come to.
ghost use Rattle.number_marks.specs.Marking.{has_mark, with_marks, with_room, past_all, is_among};
ghost use Rattle.std.specs.Prelude.{◌≡◌, ◌≤◌, ◌||◌, ℕ, List, Bool, true, length, take};

/// A number has a mark afterwards exactly where it had one or is among those that were given one.
pub fn marked_alone()
    ensures { (numbers : List ℕ) (marks : List Bool) (n : ℕ) → has_mark (with_marks numbers marks) n ≡ (is_among n numbers || has_mark marks n) }
{}

/// Marks stay as others are given.
pub fn marks_stay()
    ensures { (numbers : List ℕ) (marks : List Bool) (n : ℕ) → has_mark marks n ≡ true → has_mark (with_marks numbers marks) n ≡ true }
{}

/// Room for numbers is no mark; given up it was never there; and once these numbers have their marks, it makes no difference.
pub fn room_marks_none()
    ensures none { (room : ℕ) (marks : List Bool) (n : ℕ) → has_mark (with_room room marks) n ≡ has_mark marks n }
    ensures given_up { (room : ℕ) (marks : List Bool) → take (length marks) (with_room room marks) ≡ marks }
    ensures filled { (numbers : List ℕ) (marks : List Bool) → with_marks numbers (with_room (past_all numbers) marks) ≡ with_marks numbers marks }
    ensures enough { (room : ℕ) (marks : List Bool) → room ≤ length (with_room room marks) }
{}
