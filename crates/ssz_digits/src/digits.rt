// Bytes as digits, written in the room that the bytes stand in.
ghost use Rattle.std.specs.Prelude.{◌≡◌, ◌<◌, ◌≤◌, ◌+◌, ◌*◌, ◌∷◌, ◌++◌, [], length, take, drop, slice_index, IfOk, OnOk, OnErr};
ghost use Rattle.hex.specs.Hex.{encode_lower, lower_digits};

use std::alloc::AllocError;

// How many bytes are written at a time.
const BLOCK: usize = 32;

// The digit of a number. A sum, and no place of a table: so those of a block are made by vectors.
#[inline(always)]
#[tactic(auto, using(crate::proofs::HexDigits::low_digit, crate::proofs::HexDigits::high_digit))]
fn digit(number: u8) -> u8
    requires { number < 16 }
    ensures { result ≡ slice_index lower_digits number }
{
    if number < 10 {
        b'0' + number
    } else {
        b'a' - 10 + number
    }
}

// The digits of a block.
#[inline(always)]
fn digits_of_block(block: &[u8]) -> [u8; 2 * BLOCK]
    requires { length block.now ≡ 32 }
    ensures { result ≡ encode_lower block.now }
{
    let mut digits = [0; 2 * BLOCK];
    for i in 0..BLOCK {
        let high = digit(block[i] >> 4);
        let low = digit(block[i] & 15);
        digits[2 * i] = high;
        digits[2 * i + 1] = low;
    }
    digits
}

// Writes the digits of fewer bytes than a block has, which stand in front, from a place on.
fn spread_first(room: &mut [u8], from: usize, count: usize)
    requires few { count < 32 }
    requires inside { from + 2 * count ≤ length room.old }
    ensures long { length room.new ≡ length room.old }
    ensures digits { drop from room.new
        ≡ encode_lower (take count room.old) ++ drop (from + 2 * count) room.old }
{
    let mut digits = [0; 2 * BLOCK];
    let (front, _) = digits.split_at_mut(2 * count);
    let _ = hex::encode_to_slice(&room[..count], front);
    room[from..from + 2 * count].copy_from_slice(front);
}

// Writes so many bytes in front as digits to the end of the room, from this place on. The last
// block comes first, so that no byte is written over before it is read.
fn spread(room: &mut [u8], from: usize, count: usize)
    requires { from + 2 * count ≡ length room.old }
    ensures long { length room.new ≡ length room.old }
    ensures digits { drop from room.new ≡ encode_lower (take count room.old) }
{
    let mut left = count;
    'spreading: while left >= BLOCK {
        left -= BLOCK;
        let digits = digits_of_block(&room[left..left + BLOCK]);
        let at = from + 2 * left;
        room[at..at + 2 * BLOCK].copy_from_slice(&digits);
    }
    spread_first(room, from, left);
}

/// Writes the bytes as digits, for which there is just the room.
pub fn put_digits(bytes: &[u8], room: &mut [u8])
    requires { length room.old ≡ 2 * length bytes.now }
    ensures { room.new ≡ encode_lower bytes.now }
{
    room[..bytes.len()].copy_from_slice(bytes);
    spread(room, 0, bytes.len());
}

// Writes two texts to the front.
fn put_front(room: &mut [u8], front: &[u8], word: &[u8])
    requires { length front.now + length word.now ≤ length room.old }
    ensures { room.new
        ≡ front.now ++ (word.now ++ drop (length front.now + length word.now) room.old) }
{
    room[..front.len()].copy_from_slice(front);
    room[front.len()..front.len() + word.len()].copy_from_slice(word);
}

// Makes two texts and digits of the bytes that stand in front.
fn write_line(room: &mut [u8], front: &[u8], word: &[u8], count: usize)
    requires { length front.now + length word.now + 2 * count ≡ length room.old }
    ensures { room.new ≡ front.now ++ (word.now ++ encode_lower (take count room.old)) }
{
    spread(room, front.len() + word.len(), count);
    put_front(room, front, word);
}

/// Two texts, the bytes as digits and a line feed, in the memory of the bytes: so that these and
/// their digits never stand beside each other.
#[tactic(auto, using(crate::proofs::Spreading::resized_front, crate::proofs::Spreading::line_joined))]
pub fn line_of_digits(front: &[u8], word: &[u8], bytes: Vec<u8>) -> Result<Vec<u8>, AllocError>
    ensures { IfOk result (λ line. line.items
        ≡ front.now ++ (word.now ++ (encode_lower bytes.items ++ 10 ∷ []))) }
{
    let count = bytes.len();
    let begin = front.len() + word.len();
    let end = begin.checked_add(2 * count).ok_or(AllocError)?;
    let mut room = bytes;
    room.reserve_exact(end - count + 1)?;
    room.resize(end, 0)?;
    write_line(room.as_mut_slice(), front, word, count);
    room.push(b'\n')?;
    Ok(room)
}
