ghost use Rattle.right_linking.specs.Parts.{Parts};
ghost use Rattle.right_linking.specs.Whole.{AssembledIsCode};

use right_linking::{
    code_follows, codes_have_views, runs_follow, systems_offer_theirs, traces_follow,
};
use right_program_answers::answers_follow;
use right_program_costs::accounts_follow;
use right_program_instances::{forms_are_of_slots, instances_have_paths, zeros_have_forms};
use right_program_interfaces::{assembled_has_shape, assembled_is_least};
use right_program_root::{roots_start, roots_take_ticks};
use right_program_rules::assembled_is_lawful;
use right_program_runs::lives_follow;
use right_program_starts::{
    renewals_go_inside, renewals_reach_inside, restarts_follow, systems_are_renewed,
};

/// The program that the codes of all systems of a model come to, each right by itself, is lawful, and
/// code for the model's diagram.
pub fn assembled_is_code()
    ensures { (a : Parts) → AssembledIsCode a }
{
    codes_have_views();
    systems_offer_theirs();
    zeros_have_forms();
    forms_are_of_slots();
    instances_have_paths();
    systems_are_renewed();
    renewals_reach_inside();
    accounts_follow();
    lives_follow();
    roots_start();
    roots_take_ticks();
    answers_follow();
    traces_follow();
    renewals_go_inside();
    restarts_follow();
    runs_follow();
    assembled_has_shape();
    assembled_is_least();
    assembled_is_lawful();
    code_follows();
}
