ghost use Rattle.std.specs.Prelude.{◌≡◌, ◌↔◌, ℕ, List, None, Some};
ghost use Rattle.pgs_lexer.specs.declared.item.Item.{Item};
ghost use Rattle.pgs_lexer.specs.Form.{BeginsNoItem, IsLongestItem};
ghost use Rattle.pgs_lexer.specs.Scan.{item_at};
ghost use Rattle.pgs_lexer.specs.Cut.{IsCut, told_by, tokens_of};

/// A law of the definitions: what `item_at` finds by the first bytes is the longest item at the front by its form,
/// and it finds none exactly where there is none.
pub fn longest_item()
    ensures found { (text : List ℕ) (item : Item) → (item_at text ≡ Some item) ↔ IsLongestItem text item }
    ensures none { (text : List ℕ) → (item_at text ≡ None) ↔ BeginsNoItem text }
{}

/// A law of the definitions: a text has one cut into longest items, and `tokens_of` gives the tokens of that cut, or
/// the line of the byte at which it ends.
pub fn one_cut()
    ensures some { (text : List ℕ) → (items : List Item) × (rest : List ℕ) × IsCut text items rest }
    ensures one { (text : List ℕ) (items others : List Item) (rest other : List ℕ) →
        IsCut text items rest → IsCut text others other → (items ≡ others) × (rest ≡ other) }
    ensures tokens { (text : List ℕ) (items : List Item) (rest : List ℕ) → IsCut text items rest → tokens_of text ≡ told_by text items rest }
{}
