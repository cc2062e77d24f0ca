// What a look answers, in words: its values, or 0 where it is refused or there is none.
ghost use Rattle.std.specs.Prelude.{◌≡◌, ◌≤◌, Some, length};
ghost use Rattle.srt_group_model.specs.Guards.{Answer, shown, number, optional, truth, one_member};
ghost use Rattle.srt_group_words.specs.Words.{in_words, Said};
ghost use Rattle.srt_group_looks.specs.Looks.{given_code, given_answer};

use srt_group_collecting::collecting::flag;
use srt_group_looks::members::{MEMBER_WORDS, words_of};
use srt_group_model::MemberShown;
use srt_group_words::answers::put;
use srt_protocol::error::Error;

// The word of a number or a flag.
pub const SHOWN: usize = 1;

// What a look gives, as so many numbers.
pub trait InWords<const N: usize>: Copy {
    ghost answer: { Self → Answer };

    fn numbers(self) -> [u64; N]
        ensures { result ≡ in_words N (answer self) 0 };
}

impl InWords<SHOWN> for u64 {
    ghost answer = { λ n. shown (number n) };

    #[tactic(auto, unfolding(srt_group_words::specs::Words::in_words, srt_group_words::specs::Words::zeros, srt_group_model::specs::Answers::values_of, srt_group_model::specs::Answers::shown_values))]
    fn numbers(self) -> [u64; SHOWN] {
        [self]
    }
}

// How many rows of a list were filled.
impl InWords<SHOWN> for usize {
    ghost answer = { λ n. shown (number n) };

    #[tactic(auto, unfolding(srt_group_words::specs::Words::in_words, srt_group_words::specs::Words::zeros, srt_group_model::specs::Answers::values_of, srt_group_model::specs::Answers::shown_values))]
    fn numbers(self) -> [u64; SHOWN] {
        [self as u64]
    }
}

// A number, or 0 where there is none: no such number is 0.
impl InWords<SHOWN> for Option<u64> {
    ghost answer = { λ n. shown (optional n) };

    #[tactic(auto, using(crate::specs::Laws::Look::optional_word))]
    fn numbers(self) -> [u64; SHOWN] {
        [self.unwrap_or(0)]
    }
}

impl InWords<SHOWN> for bool {
    ghost answer = { λ b. shown (truth b) };

    #[tactic(auto, unfolding(srt_group_words::specs::Words::in_words, srt_group_words::specs::Words::zeros, srt_group_model::specs::Answers::values_of, srt_group_model::specs::Answers::shown_values))]
    fn numbers(self) -> [u64; SHOWN] {
        [flag(self)]
    }
}

impl InWords<MEMBER_WORDS> for MemberShown {
    ghost answer = { λ m. shown (one_member (Some m)) };

    #[tactic(auto, unfolding(srt_group_words::specs::Words::in_words, srt_group_words::specs::Words::zeros, srt_group_model::specs::Answers::values_of, srt_group_model::specs::Answers::shown_values))]
    fn numbers(self) -> [u64; MEMBER_WORDS] {
        words_of(self)
    }
}

// What is given over the first words of the row, and its code.
#[tactic(auto, using(crate::specs::Laws::Look::says_given))]
pub fn put_given<const N: usize, T: InWords<N>>(answer: &mut [u64], given: Result<T, Error>) -> u32
    requires { N ≤ length answer.old }
    ensures { Said (given_code given) (in_words N (given_answer T.answer given) 0) result answer.old answer.new }
{
    match given {
        Ok(value) => {
            put(answer, value.numbers());
            0
        }
        Err(error) => {
            put(answer, [0; N]);
            u32::from(error)
        }
    }
}
