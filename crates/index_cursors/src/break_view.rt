ghost use Rattle.std.specs.Prelude.{◌≡◌, ◌<◌, ◌-◌, ◌^◌};
ghost use Rattle.index_cursors.specs.SpanHits.{started, word_hit};

use ft_base::{Breaks, Hit, Places};

/// Where the sentences and the paragraphs of a document start, to be looked up by the position of a word.
#[derive(Clone, Copy)]
pub struct BreakView<'v> {
    breaks: &'v Breaks,
}

impl<'v> BreakView<'v> {
    /// A view of these breaks.
    pub fn new(breaks: &'v Breaks) -> BreakView<'v>
        ensures { result.breaks.now ≡ breaks.now }
    {
        BreakView { breaks }
    }

    /// How many sentences start at the position or before it: the number of the word's sentence. The position is
    /// one that a span can hold.
    pub fn sentence_of(&self, position: u32) -> u32
        requires { position < 2 ^ 32 - 1 }
        ensures { result ≡ started self.now.breaks.now.sentences position }
    {
        started_at(&self.breaks.sentences, position)
    }

    /// How many paragraphs start at the position or before it: the number of the word's paragraph.
    pub fn paragraph_of(&self, position: u32) -> u32
        requires { position < 2 ^ 32 - 1 }
        ensures { result ≡ started self.now.breaks.now.paragraphs position }
    {
        started_at(&self.breaks.paragraphs, position)
    }

    /// The hit of the word at the position.
    pub(crate) fn hit(&self, position: u32) -> Hit
        requires { position < 2 ^ 32 - 1 }
        ensures { result ≡ word_hit self.now.breaks.now position }
    {
        let sentence = self.sentence_of(position);
        let paragraph = self.paragraph_of(position);
        Hit {
            query: 0,
            from: position,
            to: position,
            sent_from: sentence,
            sent_to: sentence,
            para_from: paragraph,
            para_to: paragraph,
            whole: true,
        }
    }
}

/// How many of the places are at most this one. The number of turns depends on that of the places alone, and a turn only chooses between two
/// values: which half is taken is as good as random, so a branch on it would often be guessed wrong by the processor.
fn started_at(starts: &Places, place: u32) -> u32
    requires { place < 2 ^ 32 - 1 }
    ensures { result ≡ started starts.now place }
{
    let items = starts.as_slice();
    let mut low = 0;
    let mut size = items.len();
    while size > 0 {
        let half = size / 2;
        let start = items[low + half];
        low = if start <= place {
            low + (size - half)
        } else {
            low
        };
        size = half;
    }
    low as u32
}
