// The two fields of a word: a kind in the top four bits, a signed number in the 28 below.
ghost use Rattle.std.specs.Prelude.{◌≡◌, ◌^◌, ◌<◌, MatchOption};
ghost use Rattle.words.specs.Words.{kind_bits, payload as payload_of, bits_of_payload as low_bits, signed, HeldInPayload, IsWord};

const PAYLOAD_BITS: u32 = 28;

const PAYLOAD_MASK: u32 = 0x0fff_ffff;

const SIGN: u32 = 0x0800_0000;

const SPAN: i32 = 0x1000_0000;

// The least number that a payload holds, and the largest.
const LEAST_PAYLOAD: i32 = -0x0800_0000;

const LARGEST_PAYLOAD: i32 = 0x07ff_ffff;

const MOST_KINDS: u32 = 16;

// The number of a word's kind.
pub fn kind_number(word: u32) -> u32
    ensures { result ≡ kind_bits word }
{
    word >> PAYLOAD_BITS
}

// The 28 bits of a word's payload, as they stand.
pub fn payload_bits(word: u32) -> u32
    ensures { result ≡ low_bits word }
{
    word & PAYLOAD_MASK
}

// The payload of a word, a signed number.
pub fn payload(word: u32) -> i32
    ensures { result ≡ payload_of word }
{
    let low = payload_bits(word);
    // The sign by a subtraction, which says what the payload means; each cast keeps the number, as is proved.
    if low < SIGN {
        low as i32
    } else {
        low as i32 - SPAN
    }
}

// The 28 bits that stand for a number, where there are any.
fn bits_of(number: i32) -> Option<u32>
    ensures { MatchOption result (HeldInPayload number → ⊥) (λ b. (b < 2 ^ 28) × (signed b ≡ number)) }
{
    // Each cast keeps the number, as is proved; `try_from` would add a refusal that cannot come.
    if !(LEAST_PAYLOAD..=LARGEST_PAYLOAD).contains(&number) {
        None
    } else if number >= 0 {
        Some(number as u32)
    } else {
        Some((number + SPAN) as u32)
    }
}

// The word of a kind with a number for its payload; none where four bits do not hold the kind or 28 bits the number. The kind
// is any number, also one that `Kind` does not have, so that no caller is asked for more.
pub fn word_of(kind: u32, number: i32) -> Option<u32>
    ensures { MatchOption result (kind < 2 ^ 4 → HeldInPayload number → ⊥) (IsWord kind number) }
{
    if kind >= MOST_KINDS {
        return None;
    }
    let bits = bits_of(number)?;
    Some((kind << PAYLOAD_BITS) | bits)
}
