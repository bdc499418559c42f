// Lowered code keeps the rules of sound code, and its stack numbers are those of its call groups.
#![tactic(auto)]

mod row_theorems;
mod stack_theorems;

pub use row_theorems::{
    an_example_code_is_laid, calls_come_from_the_body, fip_functions_release_nothing,
    fip_functions_wait_for_no_group_member, functions_break_no_rule, functions_make_a_code_sound,
    label_maps_are_formed, laid_functions_make_a_code_sound, numbers_are_in_range,
};
pub use stack_theorems::{alike_functions_have_the_stack_numbers, calls_of_bodies_are_reached};
