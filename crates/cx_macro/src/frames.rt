//! The round brackets ahead in a list, and the commas between them, kept from the last token on.
ghost use Rattle.std.specs.Prelude.{◌≡◌, ℕ, [], ◌∷◌, List as list, Option as option, IfOk, OnOk};
ghost use Rattle.cx_tokens.specs.declared.token.Token.{Token as token_type};
ghost use Rattle.cx_macro.specs.declared.frames.Frame.{Frame as frame_type};
ghost use Rattle.cx_macro.specs.Shapes.Frames.{AreFrames, frame_at, outside, with_comma};

use crate::marks::{is_close, is_comma, is_open};
use crate::stack::Stack;
use crate::walk::one_more;
use cx_base::{NoMemory, SharedList, Text};
use cx_tokens::Token;
use std::alloc::Global;

/// A closing bracket ahead, with the commas before it that stand in no other brackets, the first on
/// top.
#[derive(Drop)]
pub(crate) struct Frame {
    /// What it hides.
    pub(crate) hide: SharedList<Text>,
    /// How many tokens stand behind it.
    pub(crate) behind: usize,
    /// How many stand behind each comma.
    pub(crate) commas: Stack<usize>,
}

/// The brackets ahead. A token costs no more than a few steps when it is put before the others, and
/// when it is passed.
#[derive(Drop)]
pub(crate) struct Frames {
    /// How many tokens are ahead.
    pub(crate) len: usize,
    /// The closing brackets whose opening ones are passed, the first on top.
    pub(crate) frames: Stack<Frame>,
    /// The closing bracket of each opening one, the first on top.
    pub(crate) openings: Stack<Option<Frame>>,
}

/// Counts a comma, with so many tokens behind it, to the innermost brackets.
fn put_comma(frames: &mut Stack<Frame>, behind: usize) -> Result<(), NoMemory>
    ensures { OnOk result (frames.new ≡ with_comma behind frames.old) }
{
    let Some(frame) = frames.pop() else {
        return Ok(());
    };
    let mut frame = frame;
    frame.commas.push(behind)?;
    frames.push(frame)?;
    Ok(())
}

/// Takes the first comma of the innermost brackets.
fn take_comma(frames: &mut Stack<Frame>) -> Result<(), NoMemory>
    ensures { OnOk result ((n : ℕ) (others : list frame_type)
        → frames.old ≡ with_comma n others → frames.new ≡ others) }
{
    let Some(frame) = frames.pop() else {
        return Ok(());
    };
    let mut frame = frame;
    let _comma = frame.commas.pop();
    frames.push(frame)?;
    Ok(())
}

/// Goes into the brackets of the first opening one.
fn go_in(frames: &mut Stack<Frame>, openings: &mut Stack<Option<Frame>>) -> Result<(), NoMemory>
    ensures { OnOk result ((others : list frame_type) (rest : list (option frame_type))
        → frames.old ≡ outside others → openings.old ≡ frame_at 0 others ∷ rest
        → (frames.new ≡ others) × (openings.new ≡ rest)) }
{
    let Some(closing) = openings.pop() else {
        return Ok(());
    };
    let Some(frame) = closing else {
        return Ok(());
    };
    frames.push(frame)?;
    Ok(())
}

impl Frames {
    /// Those of no tokens.
    pub(crate) fn new(alloc: Global) -> Frames
        ensures { AreFrames result [] }
    {
        Frames {
            len: 0,
            frames: Stack::new(alloc),
            openings: Stack::new(alloc),
        }
    }

    /// Those with a token before the others.
    pub(crate) fn with(self, alloc: Global, token: &Token) -> Result<Frames, NoMemory>
        ensures { IfOk result (λ new. (ts : list token_type) → AreFrames self ts
            → AreFrames new (token.now ∷ ts)) }
    {
        let Frames {
            len: behind,
            frames,
            openings,
        } = self;
        let len = one_more(behind)?;
        let mut frames = frames;
        let mut openings = openings;
        if is_close(token) {
            frames.push(Frame {
                hide: token.hide.share()?,
                behind,
                commas: Stack::new(alloc),
            })?;
            return Ok(Frames {
                len,
                frames,
                openings,
            });
        }
        if is_open(token) {
            openings.push(frames.pop())?;
            return Ok(Frames {
                len,
                frames,
                openings,
            });
        }
        if is_comma(token) {
            put_comma(&mut frames, behind)?;
            return Ok(Frames {
                len,
                frames,
                openings,
            });
        }
        Ok(Frames {
            len,
            frames,
            openings,
        })
    }

    /// Those behind the first token.
    pub(crate) fn behind(self, token: &Token) -> Result<Frames, NoMemory>
        ensures { IfOk result (λ new. (ts : list token_type) → AreFrames self (token.now ∷ ts)
            → AreFrames new ts) }
    {
        let Frames {
            len,
            frames,
            openings,
        } = self;
        let len = len.saturating_sub(1);
        let mut frames = frames;
        let mut openings = openings;
        if is_close(token) {
            let _closing = frames.pop();
            return Ok(Frames {
                len,
                frames,
                openings,
            });
        }
        if is_open(token) {
            go_in(&mut frames, &mut openings)?;
            return Ok(Frames {
                len,
                frames,
                openings,
            });
        }
        if is_comma(token) {
            take_comma(&mut frames)?;
            return Ok(Frames {
                len,
                frames,
                openings,
            });
        }
        Ok(Frames {
            len,
            frames,
            openings,
        })
    }
}
