// Pages as they are sent, from all the bytes behind a session.
ghost use Rattle.std.specs.Prelude.{◌++◌};
ghost use Rattle.wire_form.specs.Spelling.{IsWhole};
ghost use Rattle.wire_form.specs.Prefix as path;
ghost use Rattle.wire_form.specs.Sent.{sent, IsSent};
ghost use Rattle.wire_form.specs.Reading.{ReadsAll};

use crate::items::read_items;
use crate::page_reading::read_page;
use crate::prefix::read_prefix;
use crate::sent_page::SentPage;
use dots::{Refusal, Value};
use hash_path::Prefix;
use std::alloc::Allocator;

pub(crate) fn read_sent<A: Allocator + Copy>(alloc: A, bytes: &[u8]) -> Result<SentPage<A>, Refusal>
    ensures { ReadsAll (λ page. page) (IsWhole sent IsSent bytes.now) result }
{
    match read_prefix(bytes) {
        Ok(front) => read_sent_at(alloc, front.0, front.1),
        Err(refusal) => Err(refusal),
    }
}

// The page for this prefix, whose values and whose own bytes are all the bytes.
fn read_sent_at<A: Allocator + Copy>(
    alloc: A,
    prefix: Prefix,
    bytes: &[u8],
) -> Result<SentPage<A>, Refusal>
    requires { path.IsPrefix prefix }
    ensures { ReadsAll (λ page. page) (IsWhole sent IsSent (path.prefix prefix ++ bytes.now)) result }
{
    let (values, rest) = read_items::<Value<A>, A>(alloc, bytes)?;
    let page = read_page(alloc, rest)?;
    match SentPage::new(prefix, values, page) {
        Some(sent) => Ok(sent),
        None => Err(Refusal::NotAMessage),
    }
}
