//! The words of `--keep`.

/// The things that a file keeps when it is rewritten.
#[derive(Clone, Copy, Debug, PartialEq, Eq)]
pub struct KeptWords {
    pub ids: bool,
    pub filler: bool,
    pub order: bool,
}

/// Returns the things that a list names. It has words with commas between them, in any order. Returns
/// `None` if a word is unknown, or there twice.
pub(crate) fn kept_words(list: &str) -> Option<KeptWords> {
    let mut kept = KeptWords {
        ids: false,
        filler: false,
        order: false,
    };
    for word in list.split(',') {
        kept = with_word(kept, word)?;
    }
    Some(kept)
}

/// Adds the thing that a word names, if it isn't there yet.
fn with_word(kept: KeptWords, word: &str) -> Option<KeptWords> {
    match word {
        "ids" if !kept.ids => Some(KeptWords { ids: true, ..kept }),
        "filler" if !kept.filler => Some(KeptWords {
            filler: true,
            ..kept
        }),
        "order" if !kept.order => Some(KeptWords {
            order: true,
            ..kept
        }),
        _ => None,
    }
}
