//! The value of an atomic, which its two data words have together.
use draw_story::story::{Story, StoryObject};
use sync_steps::steps::{Act, Word};
use text_lines::integer::TextInteger;

/// The two data words of an atomic.
#[derive(Clone, Copy)]
pub struct DataWords {
    pub low: u64,
    pub high: u64,
    /// Whether of a new value only the low word is written.
    pub is_half: bool,
}

impl DataWords {
    /// Those before the first step.
    pub fn before<T>(object: &StoryObject<T>) -> DataWords {
        DataWords {
            low: object.opening.low,
            high: object.opening.high,
            is_half: false,
        }
    }

    /// Those after a step that writes one of them.
    pub fn written_by<T: Copy>(self, act: &Act<T>) -> Option<DataWords> {
        match *act {
            Act::Store {
                word: Word::Low,
                put,
            } => Some(DataWords {
                low: put,
                high: self.high,
                is_half: true,
            }),
            Act::Store {
                word: Word::High,
                put,
            } => Some(DataWords {
                low: self.low,
                high: put,
                is_half: false,
            }),
            _ => None,
        }
    }

    /// Those of an object, by its place, after a row of the story.
    pub fn after<T: Copy>(
        story: &Story<T>,
        place: usize,
        object: &StoryObject<T>,
        row: u32,
    ) -> DataWords {
        let mut words = DataWords::before(object);
        for step in &story.steps {
            if step.object == place
                && step.row <= row
                && let Some(written) = words.written_by(&step.event.act)
            {
                words = written;
            }
        }
        words
    }

    /// The value that they have.
    pub fn value<T: TextInteger>(self) -> T {
        T::from_words(self.low, self.high)
    }
}

/// Whether a step reads or writes the second of the two words, and so knows the value.
pub fn ends_a_value<T: Copy>(act: &Act<T>) -> bool {
    match *act {
        Act::Load { word, .. } | Act::Store { word, .. } => word == Word::High,
        _ => false,
    }
}
