//! Quoted names and texts.

ghost use Rattle.std.specs.Prelude.{◌≡◌, ◌<◌, length};
ghost use Rattle.std.specs.Cow.{cow_str_bytes};
ghost use Rattle.std.specs.String.{string_bytes};
ghost use Rattle.med_lexer.specs.Cutting as cutting;
ghost use Rattle.med_lexer.specs.Steps.{GivesLexed};

use crate::bytes::{Class, cut_run, strip};
use crate::error::LexFault;
use std::alloc::Global;
use std::borrow::CowStr;

/// What stands up to the closing quote, put together run by run, a doubled quote as one, and the text behind it.
fn joined(alloc: Global, quote: u8, text: &str) -> Result<(String, &str), LexFault>
    requires ascii { (0 < quote) × (quote < 128) }
    ensures { GivesLexed (λ x. (string_bytes x.0, x.1.now)) result (cutting.quote quote text.now) }
{
    let mut out = String::new(alloc);
    let mut rest = text;
    loop {
        let (plain, after) = cut_run(rest, Class::Plain(quote));
        out.push_str(plain)?;
        let Some((_, behind)) = strip(after, quote) else {
            return Err(LexFault::BadToken);
        };
        let Some((again, more)) = strip(behind, quote) else {
            return Ok((out, behind));
        };
        out.push_str(again)?;
        rest = more;
    }
}

/// What stands up to the closing quote, a doubled quote as one, and the text behind it. It is borrowed where no quote is doubled.
pub fn unquoted(
    alloc: Global,
    quote: u8,
    text: &str,
) -> Result<(CowStr<'_, Global>, &str), LexFault>
    requires ascii { (0 < quote) × (quote < 128) }
    ensures { GivesLexed (λ x. (cow_str_bytes x.0, x.1.now)) result (cutting.quote quote text.now) }
{
    let (plain, after) = cut_run(text, Class::Plain(quote));
    let Some((_, behind)) = strip(after, quote) else {
        return Err(LexFault::BadToken);
    };
    let Some(_) = strip(behind, quote) else {
        return Ok((CowStr::Borrowed(plain), behind));
    };
    let (made, rest) = joined(alloc, quote, text)?;
    Ok((CowStr::Owned(made), rest))
}
