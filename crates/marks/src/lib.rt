// A mark for each of the numbers 0 to 255, by value.
#![tactic(auto)]

ghost use Rattle.std.specs.Prelude.{◌≡◌};
ghost use Rattle.marks.specs.Marks.{no_marks, any_marked, marked, with_mark};

// Four words of 64: the mark of a number is a bit of one of them.
#[derive(Clone, Copy, PartialEq, Eq, Debug)]
pub struct Marks {
    pub words: [u64; 4],
}

impl Marks {
    pub fn none() -> Self
        ensures { result ≡ no_marks }
    {
        Marks { words: [0; 4] }
    }

    // Whether any number is marked. (The choices are for a test word by word, as the edit `any_where_the_last_word_is_0` has it.)
    #[tactic(auto, using(crate::proofs::Words::any_of_four, fields::proofs::Choices::choices), unfolding(crate::specs::Marks::any_marked))]
    pub fn any(self) -> bool
        ensures { result ≡ any_marked self }
    {
        self.words != [0; 4]
    }

    #[tactic(auto, unfolding(crate::specs::Marks::bit, crate::specs::Marks::marked))]
    pub fn marked(self, number: u8) -> bool
        ensures { result ≡ marked self number }
    {
        let word = usize::from(number / 64);
        let place = number % 64;
        (self.words[word] >> place) % 2 == 1
    }

    #[tactic(auto, using(crate::proofs::Words::one_at), unfolding(crate::specs::Marks::with_bit, crate::specs::Marks::with_mark))]
    pub fn with_mark(self, number: u8) -> Marks
        ensures { result ≡ with_mark self number }
    {
        let word = usize::from(number / 64);
        let place = number % 64;
        let mut words = self.words;
        words[word] |= 1 << place;
        Marks { words }
    }
}
