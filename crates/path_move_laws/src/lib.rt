//! What a move of paths makes of a history: where paths go, the image of a tree, what stands in the place of each
//! operation, and the faults; and laws of these. Each function's contract is a law, or an example that the checker
//! computes.
#![tactic(auto)]

mod examples;
mod laws;
mod maps;
mod operations;
mod path_map;
mod shortcuts;
mod trees;

pub use examples::{a_file_in_the_way_is_found, a_folder_is_left, nothing_collides_below_a_folder};
pub use laws::{
    a_move_adds_nothing, a_move_is_an_edit, a_move_keeps_soundness, a_move_keeps_the_limits,
    a_move_maps_trees, nothing_else_changes, operations_alone_are_too_many,
    the_first_fault_is_found,
};
pub use maps::{
    below_a_folder_nothing_collides, images_are_paths, out_of_a_folder_nothing_gets_longer,
    what_is_below_goes_along,
};
pub use operations::{an_operation_moves_the_image, operations_are_mapped_in_turn};
pub use path_map::PathMap;
pub use shortcuts::{
    a_copy_is_right, a_deletion_has_no_fault, a_deletion_is_right, a_deletion_of_nothing_is_known,
    a_put_is_right, a_rename_is_right, below_a_folder_a_long_put_is_enough,
    below_a_folder_names_are_enough, below_a_folder_short_paths_go_by_name,
};
pub use trees::{
    a_collision_is_found, a_difference_makes_the_new_tree, a_difference_tells_trees_apart,
    a_long_image_comes_first, an_image_has_each_entry, an_image_is_put_together,
    what_is_no_path_is_too_long,
};
