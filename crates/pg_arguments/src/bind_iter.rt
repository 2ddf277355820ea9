// Iterators as arguments.

ghost use Rattle.std.specs.Prelude.{◌≡◌, ℕ, Option, OnOk, OnErr, IfOk, IfErr, not, ◌==◌, ◌&&◌};
ghost use Rattle.pg_arguments.specs.Encoding.{Extends};
ghost use Rattle.pg_arguments.specs.VecAnswers.{vec_answers, vec_gives_first};
ghost use Rattle.pg_arguments.specs.Iterated.{GivesFirst, comes, iterated_encoding, AddsItems, RefusesItems};

use crate::argument_buffer::PgArgumentBuffer;
use crate::array::push_front;
use crate::encode::{Encode, IsNull, PgHasArrayType, Typed};
use crate::type_info::PgTypeInfo;
use pg_wire::Error;
use std::alloc::Global;
use std::vec::IntoIter;

/// An iterator that can be an argument: its state alone decides what each of its calls answers.
pub trait PgBindIterExt: Iterator + Sized {
    /// What the next calls answer, in order, also behind a None.
    ghost answers: { Self → ℕ → Option Self.Item };

    /// The items as the elements of an array. They are asked for when the argument is added.
    fn bind_iter(self) -> PgBindIter<Self>
        ensures { result.items ≡ self }
    {
        PgBindIter { items: self }
    }

    ghost can_go_on: { (s : Self) → Self.can_next s };

    ghost gives_first: { (s : Self) (r : Option Self.Item) (t : Self) → Self.next_gives s r t → GivesFirst answers s r t };
}

/// The items of an iterator as an argument: an array. It is refused where a call behind the last item gives one more, or where there are
/// more than 2147483647.
#[derive(Drop)]
pub struct PgBindIter<I> {
    pub items: I,
}

impl<I: PgBindIterExt> Typed for PgBindIter<I>
where
    I::Item: PgHasArrayType,
{
    ghost described = { I.Item.array_described };

    fn type_info(alloc: Global) -> Result<PgTypeInfo, Error> {
        I::Item::array_type_info(alloc)
    }
}

// The next item, if there is one.
fn ask<I: PgBindIterExt>(items: &mut I) -> Option<I::Item>
    ensures { GivesFirst I.answers items.old result items.new }
{
    items.next()
}

fn is_more<I: PgBindIterExt>(items: &mut I) -> bool
where
    I::Item: Drop,
    ensures { result ≡ comes (I.answers items.old 0) }
{
    match ask(items) {
        Some(_) => true,
        None => false,
    }
}

// Whether an iterator that gave so many items, and then none, goes on. One that gave none is not asked again.
fn is_more_behind<I: PgBindIterExt>(items: &mut I, length: u32) -> bool
where
    I::Item: Drop,
    ensures { result ≡ (not (length == 0) && comes (I.answers items.old 0)) }
{
    length > 0 && is_more(items)
}

// Adds the items, or some of them; their number.
fn push_items<I: PgBindIterExt>(out: &mut PgArgumentBuffer, items: I) -> Result<u32, Error>
where
    I::Item: Encode,
    ensures ok { IfOk result (λ n. AddsItems 2147483647 I.Item.encoding (I.answers items) n out.old out.new) }
    ensures kept { OnErr result (Extends out.old out.new) }
    ensures cause { IfErr result (RefusesItems 2147483647 I.Item.encoding (I.answers items)) }
{
    let mut items = items;
    for length in 0..2147483647 {
        match ask(&mut items) {
            Some(item) => out.add(item)?,
            None => {
                if is_more_behind(&mut items, length) {
                    return Err(Error::Encode { index: 0 });
                }
                return Ok(length);
            }
        }
    }
    if is_more(&mut items) {
        return Err(Error::Encode { index: 0 });
    }
    Ok(2147483647)
}

impl<I: PgBindIterExt> Encode for PgBindIter<I>
where
    I::Item: Encode + Typed,
{
    ghost encoding = { λ b. iterated_encoding I.Item.described I.Item.encoding (I.answers b.items) };

    fn encode(self, out: &mut PgArgumentBuffer) -> Result<IsNull, Error> {
        push_front(out, I::Item::type_info(out.allocator())?)?;
        let place = out.len();
        out.push_bytes(&[0, 0, 0, 0, 0, 0, 0, 1])?;
        let length = push_items(out, self.items)?;
        out.rewrite(place, length);
        Ok(IsNull::No)
    }
}

impl<T: Drop> PgBindIterExt for IntoIter<T> {
    ghost answers = { vec_answers };

    ghost can_go_on = { λ _. tt };

    ghost gives_first = { vec_gives_first };
}
