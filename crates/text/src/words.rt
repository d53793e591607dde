//! The words of a line.
ghost use Rattle.std.specs.Prelude.{◌≡◌, ◌≤◌, length, take, drop};
ghost use Rattle.text.specs.Words.{Words};

/// Puts the words of the line, or the first of them where there are more than `words` holds, to the front of `words`, and says how many they are.
/// What `words` holds behind those stays as it was.
pub fn words_of<'a>(line: &'a str, words: &mut [&'a str]) -> usize
    ensures within { result ≤ length words.new }
    ensures front { Words (length words.new) line.now (take result words.new) }
    ensures rest { drop result words.new ≡ drop result words.old }
{
    let mut left = line.split_whitespace();
    for (count, place) in words.iter_mut().enumerate() {
        let Some(word) = left.next() else {
            return count;
        };
        *place = word;
    }
    words.len()
}
