// What comes back in C: a refusal's number, and the fields of an answer in the lent buffer.
ghost use Rattle.std.specs.Prelude.{◌≡◌, ◌*◌, length, replicate};
ghost use Rattle.answers.specs.Answer.{unsound, number_of};
ghost use Rattle.answers.specs.Told.{refusal_told};
ghost use Rattle.driver.specs.Entered.{Comes};
ghost use Rattle.driver.specs.Words.{words};

use answers::Refusal;
use uplink::fields::Fields;

// The number of an answer buffer of another length: "One of another length gets 10 before all else".
pub fn wrong_length() -> u32
    ensures { result ≡ number_of unsound }
{
    u32::from(Refusal::Unsound)
}

// A refusal: its number, and an answer without fields.
pub fn refuse(answer: &mut [u8], why: Refusal) -> u32
    ensures { (result ≡ number_of (refusal_told why)) × (answer.new ≡ replicate (length answer.old) 0) }
{
    answer.fill(0);
    u32::from(why)
}

// An answer given: the fields one after the other, each as 4 bytes, lowest first, and the number 0.
pub fn give(answer: &mut [u8], fields: &[u32]) -> u32
    requires { length answer.old ≡ 4 * length fields.now }
    ensures { (result ≡ 0) × (answer.new ≡ words fields.now) }
{
    for (i, field) in fields.iter().enumerate() {
        answer[4 * i..4 * i + 4].copy_from_slice(&field.to_le_bytes());
    }
    0
}

// What a call answers, of N fields or refused.
pub fn told<const N: usize, T: Fields<N>>(answer: &mut [u8], told: Result<T, Refusal>) -> u32
    requires { length answer.old ≡ 4 * N }
    ensures { Comes (4 * N) T.numbers told result answer.new }
{
    match told {
        Ok(given) => give(answer, &given.fields()),
        Err(why) => refuse(answer, why),
    }
}
