//! A document that is being made, and the change of its digits.

ghost use Rattle.std.specs.Prelude.{◌<◌, length};

use super::random::Random;
use std::alloc::{AllocError, Global};

/// How many digits by chance are made once.
const POOL: u64 = 65536;

/// How many bytes of noise are made once: more than any document has.
const NOISE: u64 = 1_572_864;

/// How much of the noise is left before a document.
const MARGIN: u64 = 262_144;

/// Many zeros.
const ZEROS: [u8; 320] = [b'0'; 320];

/// Many separators.
const SEPARATORS: [u8; 48] = [b'_'; 48];

/// A byte that each revision replaces by one of others.
#[derive(Clone, Copy)]
struct Spot {
    at: usize,
    choices: [u8; 16],
}

/// A text, and the chance that it is made by.
#[derive(Drop)]
pub struct Page {
    text: Vec<u8>,
    pool: Vec<u8>,
    noise: Vec<u8>,
    spots: Vec<Spot>,
    first: u8,
    count: u8,
    /// The number of the document, from 0.
    pub number: u64,
    pub random: Random,
}

/// As many bytes from a first one on, below a last one, by chance.
fn make_bytes(
    alloc: Global,
    random: &mut Random,
    count: u64,
    first: u8,
    most: u64,
) -> Result<Vec<u8>, AllocError> {
    let mut bytes = Vec::new(alloc);
    for _ in 0..count {
        bytes.push(first.wrapping_add(random.between(0, most).min(255) as u8))?;
    }
    Ok(bytes)
}

/// Replaces each of the `count` digits from `first` on by the one that is a shift further on; after
/// the last of them comes the first. Other bytes stay. The shifts are below `count`.
fn turn_digits(text: &mut [u8], shifts: &[u8], first: u8, count: u8) {
    for (byte, shift) in text.iter_mut().zip(shifts.iter()) {
        let digit = byte.wrapping_sub(first);
        let moved = digit.wrapping_add(*shift);
        let turned = moved.min(moved.wrapping_sub(count)).wrapping_add(first);
        *byte = if digit < count { turned } else { *byte };
    }
}

/// Replaces each byte of these by one of its choices, from 64 bits by chance.
fn replace_spots(text: &mut [u8], spots: &[Spot], bits: u64) {
    let mut state = bits;
    for spot in spots {
        state = state.wrapping_mul(0xd134_2543_de82_ef95).wrapping_add(1);
        if let Some(byte) = text.get_mut(spot.at) {
            *byte = spot.choices[((state >> 60) % 16) as usize];
        }
    }
}

/// Whether a byte is there and one of these.
fn is_one_of(byte: Option<&u8>, choices: &[u8; 16]) -> bool {
    match byte {
        Some(byte) => choices.iter().any(|choice| *choice == *byte),
        None => false,
    }
}

impl Page {
    /// An empty text, by the chance of a seed. A revision will change the `count` digits from
    /// `first` on.
    pub fn new(alloc: Global, seed: u64, first: u8, count: u8) -> Result<Page, AllocError> {
        let mut random = Random::of(seed, 0);
        let most = u64::from(count).saturating_sub(1);
        Ok(Page {
            text: Vec::new(alloc),
            pool: make_bytes(alloc, &mut random, POOL, b'0', 9)?,
            noise: make_bytes(alloc, &mut random, NOISE, 0, most)?,
            spots: Vec::new(alloc),
            first,
            count,
            number: 0,
            random,
        })
    }

    /// Goes on with another document.
    pub fn begin(&mut self, seed: u64, number: u64) {
        self.random = Random::of(seed, number.wrapping_add(1));
        self.number = number;
        self.text.clear();
        self.spots.clear();
    }

    /// The text so far.
    pub fn text(&self) -> &[u8] {
        self.text.as_slice()
    }

    /// How many bytes there are so far.
    pub fn len(&self) -> usize {
        self.text.len()
    }

    /// Adds a byte.
    pub fn byte(&mut self, byte: u8) -> Result<(), AllocError> {
        Ok(self.text.push(byte)?)
    }

    /// Adds bytes.
    pub fn bytes(&mut self, bytes: &[u8]) -> Result<(), AllocError> {
        self.text.extend_from_slice(bytes)
    }

    /// Adds one of some words.
    pub fn one_of(&mut self, words: &[&str]) -> Result<(), AllocError>
        requires { 0 < length words.now }
    {
        let place = self.random.below(words.len() as u64) as usize;
        self.text.extend_from_slice(words[place].as_bytes())
    }

    /// Adds a byte in one of `cases` cases.
    pub fn maybe(&mut self, byte: u8, cases: u64) -> Result<(), AllocError>
        requires { 0 < cases }
    {
        if self.random.one_in(cases) {
            self.text.push(byte)?;
        }
        Ok(())
    }

    /// Adds as many digits, at most 1024, of which the first may be a zero.
    pub fn any_digits(&mut self, count: u64) -> Result<(), AllocError> {
        let from = self.random.below(POOL - 1024) as usize;
        let to = from.saturating_add(count as usize);
        let run = self.pool.get(from..to).unwrap_or(&[]);
        self.text.extend_from_slice(run)
    }

    /// Adds as many digits, of which the first is no zero.
    pub fn digits(&mut self, count: u64) -> Result<(), AllocError> {
        if count > 0 {
            self.text
                .push(b'1'.wrapping_add(self.random.below(9) as u8))?;
            self.any_digits(count - 1)?;
        }
        Ok(())
    }

    /// Adds as many digits as are drawn from one number to another.
    pub fn some_digits(&mut self, least: u64, most: u64) -> Result<(), AllocError> {
        let count = self.random.between(least, most);
        self.digits(count)
    }

    /// Adds as many digits after a point as are drawn from one number to another.
    pub fn places(&mut self, least: u64, most: u64) -> Result<(), AllocError> {
        self.text.push(b'.')?;
        let count = self.random.between(least, most);
        self.any_digits(count)
    }

    /// Replaces the byte at a position.
    pub fn replace(&mut self, at: usize, byte: u8) {
        if let Some(there) = self.text.get_mut(at) {
            *there = byte;
        }
    }

    /// Adds as many zeros, at most 320.
    pub fn zeros(&mut self, count: u64) -> Result<(), AllocError> {
        let run = ZEROS.get(..count as usize).unwrap_or(&ZEROS);
        self.text.extend_from_slice(run)
    }

    /// Adds as many separators, at most 48.
    pub fn separators(&mut self, count: u64) -> Result<(), AllocError> {
        let run = SEPARATORS.get(..count as usize).unwrap_or(&SEPARATORS);
        self.text.extend_from_slice(run)
    }

    /// How many digits from a position on are those that each revision changes.
    pub fn turned(&self, from: usize) -> usize {
        let mut turned = 0usize;
        for byte in self.text.get(from..).unwrap_or(&[]) {
            if byte.wrapping_sub(self.first) < self.count {
                turned = turned.wrapping_add(1);
            }
        }
        turned
    }

    /// Lets each revision replace each byte from a position on that is one of these by one of them.
    pub fn free(&mut self, from: usize, choices: [u8; 16]) -> Result<(), AllocError> {
        for at in from..self.text.len() {
            if is_one_of(self.text.get(at), &choices) {
                self.spots.push(Spot { at, choices })?;
            }
        }
        Ok(())
    }

    /// Changes the digits that are to be changed, and the bytes that are free.
    pub fn revise(&mut self) {
        let from = self.random.between(0, MARGIN) as usize;
        let shifts = self.noise.get(from..).unwrap_or(&[]);
        turn_digits(&mut self.text, shifts, self.first, self.count);
        let mut random = self.random;
        replace_spots(&mut self.text, &self.spots, random.bits());
    }
}
