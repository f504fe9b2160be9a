//! Laws of blocks: functions that do nothing. Their contracts are the laws.

ghost use Rattle.std.specs.Prelude.{◌≡◌, ℕ, Bool, List, ◌++◌, ◌<◌, All, length, drop, true};
ghost use Rattle.std.specs.Float.{Format};
ghost use Rattle.std.specs.List.{concat};
ghost use Rattle.lexical_digits.specs.State.{rule_of};
ghost use Rattle.lexical_digits.specs.declared.skip.component.Component.TheVariants.{Integer};
ghost use Rattle.digit_values.specs.Errors.{literal_none_at};
ghost use Rattle.digit_literals.specs.Lists.{list_at};
ghost use Rattle.digit_integers.specs.Numbers.{number_at};
ghost use Rattle.digit_floats.specs.Errors.{none_at as float_none_at};
ghost use Rattle.digit_floats.specs.Float.{plain_marks, read_at};
ghost use Rattle.digit_amounts.specs.Scaled.{none_at as scaled_none_at, read_scaled_at};
ghost use Rattle.digit_amounts.specs.Prices.{price_by, price_none_at};
ghost use Rattle.digit_languages.specs.Literals.{literal_at, none_at as language_none_at, typed};
ghost use Rattle.digit_languages.specs.declared.language.Language.{Language};
ghost use Rattle.digit_numbers.specs.Numbers.{number_of_at};
ghost use Rattle.digit_numbers.specs.Values.{none_at as number_none_at};
ghost use Rattle.digit_numbers.specs.declared.form.Form.{Form};
ghost use Rattle.digit_pieces.specs.Both.{both_at, both_none_at};
ghost use Rattle.digit_pieces.specs.Texts.{IsApart, list_of};
ghost use Rattle.digit_blocks.specs.Blocks.{AreStarts, EndsApart, HasNoneAtEnd, HaveRoom, as_list, block_of, blocks_at, joined, last_start};

use digit_lists::laws::no_number_at_the_end;
use digit_literals::Gap;
use digit_pieces::{Both, Kind};

/// A text may be cut into blocks that are read by themselves, in any order, on any machine, if each
/// but the last is empty or ends with a separator; where blanks alone separate, with a blank. Their
/// numbers, one block after the other up to the first in which the list ends, are the list of the
/// whole text, with the same end or fault at the same position. The premises are that no byte that
/// may be between two numbers may be in one, and that no block was short of room.
pub fn blocks_give_the_list<K: Kind>(kind: K, gap: Gap)
    requires { K.valid kind }
    ensures { (room whole : ℕ) (blocks : List (List ℕ)) (last : List ℕ) →
        IsApart (K.has_byte kind) gap →
        All (EndsApart gap) blocks →
        HaveRoom (K.number_at kind) K.none_at K.error_later (K.has_byte kind) gap room blocks last →
        let text = concat blocks ++ last in
        let read = joined (K.number_at kind) K.none_at K.error_later (K.has_byte kind) gap room
        blocks last in
        length read.0 < whole →
        list_at (K.number_at kind text) K.none_at gap text whole 0 ≡ read }
{}

/// The same of a text that is cut at positions, each where a block may begin, as
/// [`block_start`](crate::block_start) finds them.
pub fn cuts_give_the_list<K: Kind>(kind: K, gap: Gap)
    requires { K.valid kind }
    ensures { (room whole : ℕ) (text cuts : List ℕ) →
        let blocks = blocks_at text 0 cuts in
        let last = drop (last_start 0 cuts) text in
        IsApart (K.has_byte kind) gap →
        AreStarts gap text 0 cuts →
        HaveRoom (K.number_at kind) K.none_at K.error_later (K.has_byte kind) gap room blocks last →
        let read = joined (K.number_at kind) K.none_at K.error_later (K.has_byte kind) gap room
        blocks last in
        length read.0 < whole →
        list_at (K.number_at kind text) K.none_at gap text whole 0 ≡ read }
{}

/// A block that ends with a separator may be read as a list, if a separator may be last: where that
/// is over at the block's end, the piece asks for more. The premise of the block's end holds of
/// each kind here ([`kinds_have_none_at_the_end`], [`a_pair_has_none_at_the_end`]).
pub fn a_piece_is_a_list<K: Kind>(kind: K, gap: Gap)
    requires { K.valid kind }
    ensures { (room : ℕ) (block : List ℕ) →
        IsApart (K.has_byte kind) gap → gap.may_trail ≡ true → EndsApart gap block →
        HasNoneAtEnd (K.number_at kind) K.none_at block →
        as_list (block_of (K.number_at kind) K.none_at K.error_later (K.has_byte kind) gap room
        block)
        ≡ list_of (K.number_at kind) K.none_at K.error_later (K.has_byte kind) gap block room 0 }
{}

/// No number is where a text ends, and the error says so: of integers, floats, scaled numbers,
/// prices, numbers by a form and literals of a language.
pub fn kinds_have_none_at_the_end(text: &[u8], word: u128)
    ensures integers { (least most : ℕ) →
        HasNoneAtEnd (number_at least most (rule_of word Integer)) literal_none_at text.now }
    ensures floats { (f : Format) →
        HasNoneAtEnd (λ text start. read_at word text plain_marks f start) float_none_at text.now }
    ensures scaled { (point places least most : ℕ) →
        HasNoneAtEnd (λ text start. read_scaled_at word text point places least most start)
        scaled_none_at text.now }
    ensures prices { (is_exact is_grouped : Bool) (point places least most : ℕ) →
        HasNoneAtEnd
        (λ text start. price_by is_exact is_grouped word text point places least most start)
        price_none_at text.now }
    ensures numbers { (form : Form) (f : Format) →
        HasNoneAtEnd (λ text start. number_of_at form text start f) number_none_at text.now }
    ensures literals { (language : Language) (most : ℕ) →
        HasNoneAtEnd (λ text start. typed (literal_at language text start most)) language_none_at
        text.now }
{
    no_number_at_the_end(text, word)
}

/// The same of two numbers, of which the first has none there.
pub fn a_pair_has_none_at_the_end<A: Kind, B: Kind>(kind: Both<A, B>, text: &[u8])
    requires { HasNoneAtEnd (A.number_at kind.first) A.none_at text.now }
    ensures { HasNoneAtEnd
        (both_at (A.number_at kind.first) kind.between (B.number_at kind.second))
        (both_none_at A.none_at) text.now }
{}
