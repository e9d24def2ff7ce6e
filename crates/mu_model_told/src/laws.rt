//! Laws of the definitions: functions that do nothing, whose contracts are proved.

ghost use Rattle.mu_model_told.specs.Laws.{NumbersStay, OctetsSayNumbers, ToldIsSo};
ghost use Rattle.mu_model_told.specs.Reached.{SentIsReached, ToldIsReached};

use mu_model_wire::laws::{
    canonical_is_read, grammar_holds, opcodes_are_kept, reads_what_is_spelled,
};

/// What octets say to a node is in the ranges of the grammar.
pub fn octets_say_numbers()
    ensures { OctetsSayNumbers }
{
    grammar_holds();
    reads_what_is_spelled();
}

/// What a node tells, read from its octets, is so after the event.
pub fn told_is_so()
    ensures numbers { NumbersStay }
    ensures so { ToldIsSo }
{
    grammar_holds();
    canonical_is_read();
    opcodes_are_kept();
    mu_model_image::laws::images();
}

/// Whatever comes to a node and whenever the power goes, what it tells, read from its octets, was reached by then.
pub fn told_is_reached()
    ensures event { ToldIsReached }
    ensures all { SentIsReached }
{
    grammar_holds();
    canonical_is_read();
    opcodes_are_kept();
    mu_model_image::laws::images();
    mu_model_node::laws::states_are_sound();
    mu_model_node::laws::flash_work();
    mu_model_node::laws::one_node_is_safe();
}
