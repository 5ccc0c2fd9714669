// The words behind the program's name.
ghost use Rattle.std.specs.Prelude.{◌≡◌, ◌<◌, Some, None, IfOk, IsErrOf, option_map, length};
ghost use Rattle.draw_words.specs.Seen.{texts};
ghost use Rattle.job_file.specs.Scales.{scales};
ghost use Rattle.job_file.specs.Seen.{scale_seen};
ghost use Rattle.detail_view.specs.Words.{is_near, is_span, bounds_or, bounds_by, check_by, detail_or, word_at, detail_words, asked_by};
ghost use Rattle.detail_view.specs.Seen.{window_seen, asked_seen};
ghost use Rattle.dec_text.specs.Numbers.{digits_value};

use crate::numbers::whole;
use dec_text::{Name, natural};
use detail_pieces::Window;
use draw_words::WordsError;
use job_file::Scale;
use std::alloc::Global;

/// What a list is checked for.
#[derive(Debug, Drop)]
pub struct CheckWords {
    pub part: Name,
    pub job: Name,
    pub list: Name,
}

/// What is drawn of a view, at which scale, and under which name its page goes.
#[derive(Debug, Drop)]
pub struct DetailWords {
    pub part: Name,
    pub job: Name,
    pub view: u32,
    pub window: Window,
    pub scale: Scale,
    pub out: Name,
}

/// What words ask for.
#[derive(Debug, Drop)]
pub enum Words {
    Check(CheckWords),
    Detail(DetailWords),
}

/// What a window reaches to at most, in size.
const FAR: u64 = 1 << 40;

/// The number is at most so large.
fn is_near(number: i64) -> bool
    ensures { result ≡ is_near number }
{
    number.unsigned_abs() <= FAR
}

/// The second number is greater, and both are near.
fn is_span(from: i64, to: i64) -> bool
    ensures { result ≡ is_span from to }
{
    from < to && is_near(from) && is_near(to)
}

/// The window of these numbers, where they are those of one.
fn window_of(u1: i64, v1: i64, u2: i64, v2: i64) -> Option<Window>
    ensures { option_map window_seen result ≡ bounds_or (Some u1) (Some v1) (Some u2) (Some v2) }
{
    if is_span(u1, u2) && is_span(v1, v2) {
        Some(Window { u1, v1, u2, v2 })
    } else {
        None
    }
}

/// The window between two corners.
fn read_window(u1: &str, v1: &str, u2: &str, v2: &str) -> Option<Window>
    ensures { option_map window_seen result ≡ bounds_by u1.now v1.now u2.now v2.now }
{
    let u1 = whole(u1.as_bytes())?;
    let v1 = whole(v1.as_bytes())?;
    let u2 = whole(u2.as_bytes())?;
    let v2 = whole(v2.as_bytes())?;
    window_of(u1, v1, u2, v2)
}

/// The number of a view.
fn read_view(text: &str) -> Option<u32>
    ensures { result ≡ digits_value 9 text.now }
{
    match natural(text.as_bytes(), 9) {
        Some(view) => Some(view as u32),
        None => None,
    }
}

/// What the words behind `check` say.
fn read_check(alloc: Global, part: &str, job: &str, list: &str) -> Result<Words, WordsError>
    ensures asked { IfOk result (λ w. check_by part.now job.now list.now ≡ Some (asked_seen w)) }
    ensures usage { IsErrOf result WordsError.Usage → check_by part.now job.now list.now ≡ None }
{
    if part.is_empty() || job.is_empty() || list.is_empty() {
        return Err(WordsError::Usage);
    }
    Ok(Words::Check(CheckWords {
        part: Name::new(alloc, part)?,
        job: Name::new(alloc, job)?,
        list: Name::new(alloc, list)?,
    }))
}

/// What the words behind `detail` say, with what was read of the view's number, the window and the scale.
fn read_detail(
    alloc: Global,
    part: &str,
    job: &str,
    view: Option<u32>,
    window: Option<Window>,
    scale: Option<Scale>,
    out: &str,
) -> Result<Words, WordsError>
    ensures asked { IfOk result (λ w. detail_or part.now job.now view (option_map window_seen window) (option_map scale_seen scale) out.now ≡ Some (asked_seen w)) }
    ensures usage { IsErrOf result WordsError.Usage → detail_or part.now job.now view (option_map window_seen window) (option_map scale_seen scale) out.now ≡ None }
{
    let (Some(view), Some(window), Some(scale)) = (view, window, scale) else {
        return Err(WordsError::Usage);
    };
    if part.is_empty() || job.is_empty() || out.is_empty() {
        return Err(WordsError::Usage);
    }
    Ok(Words::Detail(DetailWords {
        part: Name::new(alloc, part)?,
        job: Name::new(alloc, job)?,
        view,
        window,
        scale,
        out: Name::new(alloc, out)?,
    }))
}

/// The word at this place.
fn word(words: &[String], at: usize) -> &str
    requires { at < length words.now }
    ensures { result.now ≡ word_at (texts words.now) at }
{
    words[at].as_str()
}

/// What ten words say, the first of which is `detail`.
fn read_ten(alloc: Global, words: &[String]) -> Result<Words, WordsError>
    requires { length words.now ≡ 10 }
    ensures asked { IfOk result (λ w. detail_words (texts words.now) ≡ Some (asked_seen w)) }
    ensures usage { IsErrOf result WordsError.Usage → detail_words (texts words.now) ≡ None }
{
    let view = read_view(word(words, 3));
    let window = read_window(
        word(words, 4),
        word(words, 5),
        word(words, 6),
        word(words, 7),
    );
    let scale = Scale::of(word(words, 8));
    read_detail(
        alloc,
        word(words, 1),
        word(words, 2),
        view,
        window,
        scale,
        word(words, 9),
    )
}

/// Reads the words behind the program's name: `check PART JOB LIST`, or `detail PART JOB VIEW U1 V1 U2 V2 SCALE OUT`. No name is
/// empty; VIEW has 1 to 9 digits, and a number of the window a minus sign, or none, and 1 to 13. The time goes with the length of
/// the words.
pub fn read_words(alloc: Global, words: &[String]) -> Result<Words, WordsError>
    ensures asked { IfOk result (λ w. asked_by (texts words.now) ≡ Some (asked_seen w)) }
    ensures usage { IsErrOf result WordsError.Usage → asked_by (texts words.now) ≡ None }
{
    if words.len() == 4 && word(words, 0) == "check" {
        return read_check(alloc, word(words, 1), word(words, 2), word(words, 3));
    }
    if words.len() == 10 && word(words, 0) == "detail" {
        return read_ten(alloc, words);
    }
    Err(WordsError::Usage)
}
