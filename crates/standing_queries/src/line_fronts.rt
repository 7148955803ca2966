//! What lines begin with, so that most others needn't be looked for among them.

ghost use Rattle.std.specs.Prelude.{◌≡◌, ℕ, List, true};
ghost use Rattle.standing_queries.specs.Changes.{is_among};
ghost use Rattle.standing_queries.specs.steps.Fronts.{begins_with, has_front};

use text_list::TextList;

/// What the lines of a list and those of the front begin with. `None` stands for no lines.
pub(crate) fn front_with<'a>(front: Option<&'a [u8]>, lines: &'a TextList) -> Option<&'a [u8]>
    ensures before { (line : List ℕ) → has_front front.entry line ≡ true → has_front result line ≡ true }
    ensures lines { (line : List ℕ) → is_among lines.now line ≡ true → has_front result line ≡ true }
{
    let mut front = front;
    for number in 0..lines.len() {
        front = front_of(front, lines.get(number));
    }
    front
}

/// The same with one line.
fn front_of<'a>(front: Option<&'a [u8]>, text: &'a str) -> Option<&'a [u8]>
    ensures before { (line : List ℕ) → has_front front.entry line ≡ true → has_front result line ≡ true }
    ensures text { has_front result text.now ≡ true }
{
    match front {
        None => Some(text.as_bytes()),
        Some(front) => Some(shared_front(front, text.as_bytes())),
    }
}

/// The longest front of these bytes with which the text begins.
fn shared_front<'a>(front: &'a [u8], text: &[u8]) -> &'a [u8]
    ensures before { (line : List ℕ) → begins_with front.now line ≡ true → begins_with result.now line ≡ true }
    ensures text { begins_with result.now text.now ≡ true }
{
    let mut length = front.len();
    while length > 0 && !text.starts_with(&front[..length]) {
        length -= 1;
    }
    &front[..length]
}
