// Code words: each octet at an odd place is the complement of the octet before it.
ghost use Rattle.std.specs.Prelude.{◌≡◌, ◌*◌, ◌↔◌, IsTrue, length};
ghost use Rattle.mu_model_record.specs.Code.{coded, IsCodeWord, content_of};

use mu_model_record::laws::code_words;

// Puts the code word of these octets.
pub(crate) fn encode(octets: &[u8], word: &mut [u8])
    requires { length word.old ≡ 2 * length octets.now }
    ensures { word.new ≡ coded octets.now }
{
    code_words();
    for (i, octet) in octets.iter().enumerate() {
        word[2 * i] = *octet;
        word[2 * i + 1] = 255 - *octet;
    }
}

// Takes the content of a code word, and answers whether it is one.
pub(crate) fn decode(word: &[u8], octets: &mut [u8]) -> bool
    requires { length word.now ≡ 2 * length octets.old }
    ensures code { IsTrue result ↔ IsCodeWord word.now }
    ensures content { IsTrue result → octets.new ≡ content_of word.now }
{
    code_words();
    for i in 0..octets.len() {
        if word[2 * i] != 255 - word[2 * i + 1] {
            return false;
        }
        octets[i] = word[2 * i];
    }
    true
}
