//! What the grammar says of small texts, which stand in `specs/Samples.antt`. The functions do nothing; their contracts
//! are the statements.

ghost use Rattle.std.specs.Prelude.{◌<◌, ℕ, List, length};
ghost use Rattle.pgs_base.specs.declared.text_limit.TheConstants.{TEXT_LIMIT};
ghost use Rattle.pgs_parser.specs.Samples.{least_text, least_script, staff_text, staff_script, acquaintance_text, acquaintance_script, moderator_text, moderator_script, mail_text, mail_script, forms_text, forms_script, bad_byte_text, no_mode_text};
ghost use Rattle.pgs_parser.specs.Text.{IsFound, script, too_long, no_item, no_statement};

/// Texts that are scripts: the least one, one of node types, one of an edge type, one of a key, one of a type and a key, and one of many forms.
pub fn scripts()
    ensures least { IsFound least_text (script least_script) }
    ensures staff { IsFound staff_text (script staff_script) }
    ensures acquaintance { IsFound acquaintance_text (script acquaintance_script) }
    ensures moderator { IsFound moderator_text (script moderator_script) }
    ensures mail { IsFound mail_text (script mail_script) }
    ensures forms { IsFound forms_text (script forms_script) }
{}

/// Texts that are none: one of over `TEXT_LIMIT` bytes, one with a byte that begins no item, and one whose statement is none.
pub fn unreadable()
    ensures long { (text : List ℕ) → TEXT_LIMIT < length text → IsFound text too_long }
    ensures bad_byte { IsFound bad_byte_text (no_item 1) }
    ensures no_mode { IsFound no_mode_text (no_statement 1) }
{}
