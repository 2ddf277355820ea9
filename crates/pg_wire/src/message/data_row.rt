ghost use Rattle.std.specs.Prelude.{◌≡◌, ◌≤◌, ◌<◌, ◌^◌, ◌↔◌, [], None, Some, length, take, drop, map, slice_index_or, option_map, IsTrue, true, false, IfOk, IfSome, OnSome, All};
ghost use Rattle.pg_wire.specs.Backend as backend;
ghost use Rattle.pg_wire.specs.Backend.{Values};
ghost use Rattle.pg_wire.specs.Decoding.{Decodes, DecodesAs, Says};
ghost use Rattle.pg_wire.specs.Reading.{number16_at, many_at, value_at};
ghost use Rattle.pg_wire.specs.Rows.{value_by, rest_at, IsPlace, IsNoRow, passed, count_passed};

use super::places::{FEW, Places};
use crate::reading::{malformed, number16, number32, value};
use crate::{Error, Frame};
use bytes::Bytes;
use std::alloc::{AllocError, Global};
use std::cmp;
use std::marker::Model;

/// The values of a row, in order, in the storage that their message was cut from: contracts see the list of their bytes, in
/// which a null is None. (PostgreSQL manual, "Message Formats", DataRow.)
#[derive(Debug)]
pub struct DataRow {
    storage: Bytes,
    places: Places,
}

// By hand, so that whoever lets one go makes one call, and doesn't go through its parts.
impl Drop for DataRow {
    fn drop(self) {
        let DataRow {
            storage: _,
            places: _,
        } = self;
    }
}

impl Model for DataRow {
    ghost use Rattle.std.specs.Prelude.{List, ℕ, Option, map, All};
    ghost use Rattle.pg_wire.specs.Rows.{value_by, IsPlace};

    ghost Value = { List (Option (List ℕ)) };

    ghost view = { λ r. map (value_by r.storage) r.places };

    ghost invariant = { λ r. All (IsPlace r.storage) r.places };
}

impl DataRow {
    // The values at these places of a body.
    fn over(storage: Bytes, places: Places) -> Self
        requires { All (IsPlace storage) places }
        ensures { result ≡ map (value_by storage) places }
    {
        DataRow { storage, places }
    }

    /// No values, which takes no memory.
    pub fn new(alloc: Global) -> Self
        ensures { result ≡ [] }
    {
        DataRow {
            storage: Bytes::new(),
            places: Places::many(Vec::new(alloc)),
        }
    }

    /// The number of values.
    pub fn len(&self) -> usize
        ensures { result ≡ length self.now }
    {
        self.places.as_slice().len()
    }

    pub fn is_empty(&self) -> bool
        ensures { IsTrue result ↔ (length self.now ≡ 0) }
    {
        self.len() == 0
    }

    /// The bytes of a value, or None for a null.
    pub fn get(&self, index: usize) -> Option<&[u8]>
        requires { index < length self.now }
        ensures { option_map (λ x. x.now) result ≡ slice_index_or self.now index None }
    {
        value_in(self.storage.as_slice(), self.places.as_slice()[index])
    }

    /// The bytes that the values lie in, which other rows may share.
    pub fn storage(&self) -> &Bytes {
        &self.storage
    }
}

// The value whose length stands at this place.
fn value_in(body: &[u8], place: u32) -> Option<&[u8]>
    requires { IsPlace body.now place }
    ensures { option_map (λ x. x.now) result ≡ value_by body.now place }
{
    match value(&body[place as usize..]) {
        Some((value, _)) => value,
        None => None,
    }
}

// The place behind the value whose length stands at this place. In so short a body a null's length is more than what follows it.
fn behind(body: &[u8], place: usize) -> Option<usize>
    requires told { length body.now < 2 ^ 31 }
    requires within { place ≤ length body.now }
    ensures rest { option_map (λ after. drop after body.now) result ≡ rest_at value_at (drop place body.now) }
    ensures within { IfSome result (λ after. after ≤ length body.now) }
{
    let Some((length, rest)) = number32(&body[place..]) else {
        return None;
    };
    let start = place + 4;
    if length as usize <= rest.len() {
        return Some(start + length as usize);
    }
    if length == u32::MAX {
        return Some(start);
    }
    None
}

// Writes down the places of so few values of a body, one behind the other, and answers the place behind them.
fn fill(places: &mut [u32; FEW], count: u16, body: &[u8]) -> Option<usize>
    requires few { count ≤ 8 }
    requires told { length body.now < 2 ^ 31 }
    requires headed { 2 ≤ length body.now }
    ensures values { option_map (λ end. (map (value_by body.now) (take count places.new), drop end body.now)) result ≡ many_at value_at count (drop 2 body.now) }
    ensures places { OnSome result (All (IsPlace body.now) (take count places.new)) }
    ensures within { IfSome result (λ end. end ≤ length body.now) }
{
    let mut place = 2;
    for index in 0..count {
        let Some(after) = behind(body, place) else {
            return None;
        };
        places[index as usize] = place as u32;
        place = after;
    }
    Some(place)
}

// Whether a body is one of a row with so few values, whose places it writes down.
fn find_few(places: &mut [u32; FEW], count: u16, body: &[u8]) -> bool
    requires few { count ≤ 8 }
    requires told { length body.now < 2 ^ 31 }
    requires headed { number16_at body.now ≡ Some (count, drop 2 body.now) }
    ensures yes { result ≡ true → Says 68 body.now (backend.DataRow (map (value_by body.now) (take count places.new))) }
    ensures no { result ≡ false → IsNoRow body.now }
    ensures places { result ≡ true → All (IsPlace body.now) (take count places.new) }
{
    match fill(places, count, body) {
        Some(end) => end == body.len(),
        None => false,
    }
}

// The same as `fill`, for any number of values.
fn fill_many(places: &mut Vec<u32>, count: u16, body: &[u8]) -> Result<Option<usize>, AllocError>
    requires empty { places.old.items ≡ [] }
    requires told { length body.now < 2 ^ 31 }
    requires headed { 2 ≤ length body.now }
    ensures values { IfOk result (λ r. option_map (λ end. (map (value_by body.now) places.new.items, drop end body.now)) r ≡ many_at value_at count (drop 2 body.now)) }
    ensures places { IfOk result (λ r. OnSome r (All (IsPlace body.now) places.new.items)) }
    ensures within { IfOk result (λ r. IfSome r (λ end. end ≤ length body.now)) }
{
    let mut place = 2;
    for _ in 0..count {
        let Some(after) = behind(body, place) else {
            return Ok(None);
        };
        places.push(place as u32)?;
        place = after;
    }
    Ok(Some(place))
}

// The same as `find_few`, for any number of values. A body of 2 GiB is want of memory: PostgreSQL sends none of half that size.
// Room is made for no more values than the body can have.
fn find_many(places: &mut Vec<u32>, count: u16, body: &[u8]) -> Result<bool, AllocError>
    requires empty { places.old.items ≡ [] }
    requires headed { number16_at body.now ≡ Some (count, drop 2 body.now) }
    ensures yes { IfOk result (λ found. found ≡ true → Says 68 body.now (backend.DataRow (map (value_by body.now) places.new.items))) }
    ensures no { IfOk result (λ found. found ≡ false → IsNoRow body.now) }
    ensures places { IfOk result (λ found. found ≡ true → All (IsPlace body.now) places.new.items) }
{
    if body.len() > i32::MAX as usize {
        return Err(AllocError);
    }
    places.reserve_exact(cmp::min(count as usize, body.len() / 4))?;
    match fill_many(places, count, body)? {
        Some(end) => Ok(end == body.len()),
        None => Ok(false),
    }
}

fn cut_many(alloc: Global, count: u16, frame: Frame) -> Result<DataRow, Error>
    requires { number16_at frame.body ≡ Some (count, drop 2 frame.body) }
    ensures { Decodes backend.DataRow 68 frame.body result }
{
    let mut places = Vec::new(alloc);
    if !find_many(&mut places, count, frame.body())? {
        return Err(malformed(b'D'));
    }
    Ok(DataRow::over(frame.into_body(), Places::many(places)))
}

/// Reads a frame whose body is that of a `D` message. The row shares the frame's storage, and no value is copied.
pub fn cut_data_row(alloc: Global, frame: Frame) -> Result<DataRow, Error>
    ensures { Decodes backend.DataRow 68 frame.body result }
{
    let body = frame.body();
    let Some((count, _)) = number16(body) else {
        return Err(malformed(b'D'));
    };
    if count as usize > FEW || body.len() > i32::MAX as usize {
        return cut_many(alloc, count, frame);
    }
    let mut places = [0; FEW];
    if !find_few(&mut places, count, body) {
        return Err(malformed(b'D'));
    }
    Ok(DataRow::over(frame.into_body(), Places::few(places, count)))
}

/// Reads the body of a `D` message, into storage of the row's own.
pub fn decode_data_row(alloc: Global, body: &[u8]) -> Result<DataRow, Error>
    ensures { Decodes backend.DataRow 68 body.now result }
{
    let storage = Bytes::copy_from_slice(alloc, body)?;
    cut_data_row(alloc, Frame::new(b'D', storage))
}

// Passes over so many values, and answers the bytes behind them.
fn pass_values(count: u16, bytes: &[u8]) -> Option<&[u8]>
    ensures { option_map (λ x. x.now) result ≡ passed value_at count bytes.now }
{
    let mut rest = bytes;
    for _ in 0..count {
        let Some((_, after)) = value(rest) else {
            return None;
        };
        rest = after;
    }
    Some(rest)
}

fn count_values(body: &[u8]) -> Option<u16>
    ensures { result ≡ count_passed value_at body.now }
{
    let (count, rest) = number16(body)?;
    match pass_values(count, rest)? {
        [] => Some(count),
        _ => None,
    }
}

/// Checks that a body is that of a `D` message, and answers its number of values. Nothing is kept of it.
pub fn check_data_row(body: &[u8]) -> Result<u16, Error>
    ensures { DecodesAs (λ n m. (values : Values) × (m ≡ backend.DataRow values) × (length values ≡ n)) 68 body.now result }
{
    match count_values(body) {
        Some(count) => Ok(count),
        None => Err(malformed(b'D')),
    }
}

/// The number of values that a row with this body has, if it is one. It looks at two bytes alone.
pub fn claimed_width(body: &[u8]) -> Option<u16>
    ensures { (values : Values) → Says 68 body.now (backend.DataRow values) → result ≡ Some (length values) }
{
    match number16(body) {
        Some((count, _)) => Some(count),
        None => None,
    }
}
