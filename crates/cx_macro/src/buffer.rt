//! The list that is expanded in place, cut at the ends of the arguments of waiting calls.
ghost use Rattle.std.specs.Prelude.{◌≡◌, ◌<◌, [], ◌∷◌, ◌++◌, List as list, IfOk, MatchOption, OnOk, Some, None, length, ◌==◌, true, false};
ghost use Rattle.cx_tokens.specs.declared.token.Token.{Token as token_type};
ghost use Rattle.cx_tokens.specs.Nodes.{tokens};
ghost use Rattle.cx_macro.specs.Arguments.{Bracketed};
ghost use Rattle.cx_macro.specs.Shapes.Counting.{bracketed as bracketed_of, cut_at_comma};
ghost use Rattle.cx_macro.specs.Shapes.Frames.{AreFrames, CommasCut};
ghost use Rattle.cx_macro.specs.Partners.{HasNoPartners};
ghost use Rattle.cx_macro.specs.Shapes.Segments.{CutIs, CutsText, ahead_of, more_of};

use crate::arguments::{ArgumentSegments, Inner, arguments_of};
use crate::frames::{Frame, Frames};
use crate::level::Level;
use crate::segment::{Cut, Segment};
use crate::stack::Stack;
use crate::walk::Walk;
use cx_base::{NoMemory, SharedList, Text};
use cx_tokens::{Token, TokenList};
use std::alloc::Global;
use std::marker::Model;
use std::mem;

/// A list of tokens that is edited in place, which contracts see as the tokens done, those ahead up
/// to the end of the innermost argument, and the segments behind that.
#[derive(Drop)]
pub(crate) struct Buffer {
    level: Level,
    // The brackets ahead; none once a call was refused.
    frames: Option<Frames>,
    // The segments that are cut off from what is ahead, the first on top. A refused `put` may leave
    // them longer than what is there.
    segments: Stack<Segment>,
}

impl Model for Buffer {
    ghost use Rattle.cx_macro.specs.Shapes.Frames.{HaveFrames};
    ghost use Rattle.cx_macro.specs.Shapes.Segments.{Spread, spread_of};

    ghost Value = { Spread };

    ghost view = { λ b. spread_of b.segments b.level };

    ghost invariant = { λ b. HaveFrames b.frames b.level.ahead };
}

/// The brackets of the tokens that are read.
fn frames_over(alloc: Global, walk: Walk) -> Result<Frames, NoMemory>
    ensures { IfOk result (λ f. AreFrames f walk.entry) }
{
    let mut walk = walk;
    let mut tokens = Vec::new(alloc);
    while let Some(token) = walk.next() {
        tokens.push(token)?;
    }
    let mut frames = Frames::new(alloc);
    while let Some(token) = tokens.pop() {
        frames = frames.with(alloc, token)?;
    }
    Ok(frames)
}

/// Takes the first token ahead out of a list, and the brackets behind it.
fn pop_first(level: &mut Level, frames: Frames) -> Result<(Option<Token>, Frames), NoMemory>
    ensures frames { IfOk result (λ x. AreFrames frames level.old.ahead
        → AreFrames x.1 level.new.ahead) }
    ensures token { IfOk result (λ x. MatchOption x.0
        ((level.old.ahead ≡ []) × (level.new ≡ level.old))
        (λ t. (level.old.ahead ≡ t ∷ level.new.ahead) × (level.new.done ≡ level.old.done))) }
{
    let Some(token) = level.pop() else {
        return Ok((None, frames));
    };
    let frames = frames.behind(&token)?;
    Ok((Some(token), frames))
}

/// The brackets behind the first token ahead.
fn behind_first(level: &Level, frames: Frames) -> Result<Frames, NoMemory>
    ensures { IfOk result (λ new. (t : token_type) (rest : list token_type)
        → level.now.ahead ≡ t ∷ rest → AreFrames frames level.now.ahead → AreFrames new rest) }
{
    let mut walk = level.walk();
    match walk.next() {
        None => Ok(frames),
        Some(token) => frames.behind(token),
    }
}

/// Puts tokens before those ahead.
fn put_all(
    alloc: Global,
    level: &mut Level,
    frames: Frames,
    news: Vec<Token>,
) -> Result<Frames, NoMemory>
    ensures frames { IfOk result (λ new. AreFrames frames level.old.ahead
        → AreFrames new level.new.ahead) }
    ensures done { OnOk result (level.new.done ≡ level.old.done) }
    ensures ahead { OnOk result (level.new.ahead ≡ news.items ++ level.old.ahead) }
{
    let mut news = news;
    let mut frames = frames;
    while let Some(token) = news.pop() {
        frames = frames.with(alloc, &token)?;
        level.push(token)?;
    }
    Ok(frames)
}

/// The closing bracket of a call whose opening one was passed, where it stands in the first
/// segment.
fn closing_ahead<'a>(frames: &'a Frames, segments: &Stack<Segment>) -> Option<&'a Frame>
    ensures { (ts : list token_type) → AreFrames frames.now ts
        → MatchOption result (bracketed_of 0 (ahead_of segments.now ts) ≡ None)
        (λ f. (b : Bracketed) × (after : list token_type)
        × (bracketed_of 0 (ahead_of segments.now ts) ≡ Some b) × (f.now.hide ≡ b.closing.hide)
        × (f.now.behind ≡ length after) × (frames.now.len ≡ length (b.inner ++ b.closing ∷ after))
        × CommasCut f.now.commas (cut_at_comma 0 b.inner).after (b.closing ∷ after)) }
{
    let frame = frames.frames.peek()?;
    let inner = frames.len.saturating_sub(frame.behind).saturating_sub(1);
    if is_within(inner, segments) {
        Some(frame)
    } else {
        None
    }
}

/// Whether the first segment has more tokens than that.
fn is_within(inner: usize, segments: &Stack<Segment>) -> bool
    ensures within { result ≡ true → (ts : list token_type) (b : Bracketed)
        → bracketed_of 0 ts ≡ Some b → inner ≡ length b.inner → (after : list token_type)
        × (bracketed_of 0 (ahead_of segments.now ts)
        ≡ Some (record { inner = b.inner; closing = b.closing; after = after })) }
    ensures beyond { result ≡ false → (ts : list token_type) (b : Bracketed)
        → bracketed_of 0 ts ≡ Some b → inner ≡ length b.inner
        → bracketed_of 0 (ahead_of segments.now ts) ≡ None }
{
    match segments.peek() {
        None => true,
        Some(segment) => inner < segment.tokens,
    }
}

/// Counts a token less in the first of segments, where they are cut off; or answers that it has
/// none.
fn count_down(segments: &mut Stack<Segment>) -> bool
    ensures none { result ≡ false → (segments.new ≡ segments.old)
        × ((ts : list token_type) → ahead_of segments.old ts ≡ []) }
    ensures one { result ≡ true → (t : token_type) (ts : list token_type)
        → (ahead_of segments.old (t ∷ ts) ≡ t ∷ ahead_of segments.new ts)
        × (more_of segments.old (t ∷ ts) ≡ more_of segments.new ts) }
    ensures end { result ≡ true → more_of segments.new [] ≡ more_of segments.old [] }
{
    let Some(segment) = segments.peek() else {
        return true;
    };
    let Segment { tokens, is_ended } = *segment;
    if tokens == 0 {
        return false;
    }
    let _ = segments.replace(Segment {
        tokens: tokens - 1,
        is_ended,
    });
    true
}

/// Counts so many tokens more in the first of segments, where they are cut off.
fn count_up(segments: &mut Stack<Segment>, more: usize) -> Result<(), NoMemory>
    ensures { OnOk result
        ((news : list token_type) (ts : list token_type) → length news ≡ more
        → (ahead_of segments.new (news ++ ts) ≡ news ++ ahead_of segments.old ts)
        × (more_of segments.new (news ++ ts) ≡ more_of segments.old ts)) }
{
    let Some(segment) = segments.peek() else {
        return Ok(());
    };
    let Segment { tokens, is_ended } = *segment;
    let tokens = tokens.checked_add(more).ok_or(NoMemory)?;
    let _ = segments.replace(Segment { tokens, is_ended });
    Ok(())
}

/// Counts so many tokens and the one behind them off the first of segments, where they are cut off.
fn count_off(segments: &mut Stack<Segment>, count: usize)
    ensures { (front : list token_type) (t : token_type) (behind : list token_type)
        (ts : list token_type) → ahead_of segments.old ts ≡ front ++ t ∷ behind
        → count ≡ length front → (rest : list token_type) × (ts ≡ front ++ t ∷ rest)
        × (ahead_of segments.new rest ≡ behind)
        × (more_of segments.new rest ≡ more_of segments.old ts) }
{
    let Some(segment) = segments.peek() else {
        return;
    };
    let Segment { tokens, is_ended } = *segment;
    let tokens = tokens.saturating_sub(count).saturating_sub(1);
    let _ = segments.replace(Segment { tokens, is_ended });
}

/// Puts segments before others.
fn put_before(segments: &mut Stack<Segment>, news: Vec<Segment>) -> Result<(), NoMemory>
    ensures { OnOk result (segments.new ≡ news.items ++ segments.old) }
{
    let mut news = news;
    while let Some(segment) = news.pop() {
        segments.push(segment)?;
    }
    Ok(())
}

impl Buffer {
    /// A list of which nothing is done.
    pub(crate) fn new(alloc: Global, list: TokenList) -> Result<Buffer, NoMemory>
        ensures { IfOk result
            (λ b. b ≡ record { done = []; ahead = tokens list.nodes; more = [] }) }
    {
        let frames = frames_over(alloc, Walk::over(&list))?;
        Ok(Buffer {
            level: Level::new(list),
            frames: Some(frames),
            segments: Stack::new(alloc),
        })
    }

    /// Reads the tokens ahead.
    pub(crate) fn walk(&self) -> Walk
        ensures { result ≡ self.now.ahead }
    {
        let walk = self.level.walk();
        match self.segments.peek() {
            None => walk,
            Some(segment) => walk.within(segment.tokens),
        }
    }

    /// Whether no token is ahead.
    pub(crate) fn is_empty(&self) -> bool
        ensures { result ≡ (length self.now.ahead == 0) }
    {
        self.walk().is_empty()
    }

    /// Takes the first token ahead out of the list.
    pub(crate) fn pop(&mut self) -> Result<Option<Token>, NoMemory>
        ensures { IfOk result (λ found. MatchOption found
            ((self.old.ahead ≡ []) × (self.new ≡ self.old))
            (λ t. (self.old.ahead ≡ t ∷ self.new.ahead) × (self.new.done ≡ self.old.done)
            × (self.new.more ≡ self.old.more))) }
    {
        if !count_down(&mut self.segments) {
            return Ok(None);
        }
        let frames = mem::replace(&mut self.frames, None).ok_or(NoMemory)?;
        let (token, frames) = pop_first(&mut self.level, frames)?;
        self.frames = Some(frames);
        Ok(token)
    }

    /// Takes what is ahead in the first segment out of the list.
    pub(crate) fn clear(&mut self) -> Result<(), NoMemory>
        ensures { OnOk result
            (self.new ≡ record { done = self.old.done; ahead = []; more = self.old.more }) }
    {
        while let Some(_token) = self.pop()? {}
        Ok(())
    }

    /// Passes the first token ahead, which is done then.
    pub(crate) fn pass(&mut self) -> Result<(), NoMemory>
        requires { 0 < length self.old.ahead }
        ensures { OnOk result ((token : token_type) (rest : list token_type)
            → self.old.ahead ≡ token ∷ rest
            → (self.new.done ≡ self.old.done ++ token ∷ []) × (self.new.ahead ≡ rest)
            × (self.new.more ≡ self.old.more)) }
    {
        if !count_down(&mut self.segments) {
            return Ok(());
        }
        let frames = mem::replace(&mut self.frames, None).ok_or(NoMemory)?;
        let frames = behind_first(&self.level, frames)?;
        self.level.pass()?;
        self.frames = Some(frames);
        Ok(())
    }

    /// Puts tokens before those that are ahead.
    pub(crate) fn put(&mut self, alloc: Global, news: Vec<Token>) -> Result<(), NoMemory>
        ensures { OnOk result
            ((self.new.done ≡ self.old.done) × (self.new.ahead ≡ news.items ++ self.old.ahead)
            × (self.new.more ≡ self.old.more)) }
    {
        count_up(&mut self.segments, news.len())?;
        let frames = mem::replace(&mut self.frames, None).ok_or(NoMemory)?;
        let frames = put_all(alloc, &mut self.level, frames, news)?;
        self.frames = Some(frames);
        Ok(())
    }

    /// Goes on to the segment behind the first, of which nothing is left.
    pub(crate) fn advance(&mut self) -> Result<(), NoMemory>
        requires { self.old.ahead ≡ [] }
        ensures done { OnOk result (self.new.done ≡ self.old.done) }
        ensures next { OnOk result ((ahead : list token_type) (more : list (list token_type))
            → self.old.more ≡ ahead ∷ more → (self.new.ahead ≡ ahead) × (self.new.more ≡ more)) }
    {
        let Some(segment) = self.segments.pop() else {
            return Ok(());
        };
        if !segment.is_ended {
            return Ok(());
        }
        let frames = mem::replace(&mut self.frames, None).ok_or(NoMemory)?;
        let (_end, frames) = pop_first(&mut self.level, frames)?;
        self.frames = Some(frames);
        Ok(())
    }

    /// Cuts the arguments of a call whose opening bracket was passed off from what stands behind
    /// its closing one.
    pub(crate) fn cut(
        &mut self,
        alloc: Global,
        count: usize,
        variadic: bool,
    ) -> Result<Cut, NoMemory>
        ensures { IfOk result (λ cut. CutIs count variadic self.old self.new cut) }
    {
        let frames = self.frames.as_ref().ok_or(NoMemory)?;
        let Some(closing) = closing_ahead(frames, &self.segments) else {
            return Ok(Cut::Unclosed);
        };
        let hide = closing.hide.share()?;
        let inner = Inner {
            left: frames.len,
            behind: closing.behind,
            commas: closing.commas.as_slice(),
        };
        let length = inner.len();
        if count == 0 && !variadic {
            return self.cut_none(length, hide);
        }
        let Some(arguments) = arguments_of(alloc, count, variadic, inner)? else {
            return Ok(Cut::Miscounted);
        };
        let ArgumentSegments { segments, left_out } = arguments;
        let arguments = segments.len();
        self.cut_off(length, segments)?;
        Ok(Cut::Called {
            hide,
            arguments,
            left_out,
        })
    }

    /// The same of a macro without parameters, of whose call so many tokens stand between the
    /// brackets.
    fn cut_none(&mut self, inner: usize, hide: SharedList<Text>) -> Result<Cut, NoMemory>
        ensures { IfOk result (λ cut. (b : Bracketed) → bracketed_of 0 self.old.ahead ≡ Some b
            → inner ≡ length b.inner → hide ≡ b.closing.hide
            → CutIs 0 false self.old self.new cut) }
    {
        if inner > 0 {
            return Ok(Cut::Miscounted);
        }
        let _closing = self.pop()?;
        Ok(Cut::Called {
            hide,
            arguments: 0,
            left_out: false,
        })
    }

    /// Cuts segments off, of so many tokens with the ends between them, and the end of the last.
    fn cut_off(&mut self, inner: usize, news: Vec<Segment>) -> Result<(), NoMemory>
        ensures { OnOk result
            ((b : Bracketed) (raw : list (list token_type)) → bracketed_of 0 self.old.ahead ≡ Some b
            → inner ≡ length b.inner → CutsText news.items b.inner raw None
            → (self.new.done ≡ self.old.done)
            × (self.new.ahead ∷ self.new.more ≡ raw ++ b.after ∷ self.old.more)) }
    {
        count_off(&mut self.segments, inner);
        put_before(&mut self.segments, news)
    }

    /// The list, done or not.
    pub(crate) fn into_list(self) -> TokenList
        ensures tokens { self.more ≡ [] → tokens result.nodes ≡ self.done ++ self.ahead }
        ensures partners { self.more ≡ [] → self.ahead ≡ [] → HasNoPartners result.nodes }
    {
        self.level.into_list()
    }
}
