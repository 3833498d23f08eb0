// The commands that take arcs, codes 03, 06 and 07: a module for each.

#![tactic(auto, unfolding(arc_ends::specs::Ends::edge_of, arc_ends::specs::Ends::ends_finite, arc_ends::specs::Ends::ends_in_range, arc_ends::specs::Ends::ends_of, special_points_finder::specs::Arcs::arc_at, table::specs::States::given_of, table::specs::States::needs_settings, table::specs::Table::arc, table::specs::Table::arc_work, table::specs::Table::meeting_work, table::specs::Table::parallel, table::specs::Table::two_arcs, table::specs::Turns::finite_from, table::specs::Turns::first_failing, table::specs::Turns::flags_from, table::specs::Turns::in_range_from, table::specs::Turns::refusal_of, table::specs::Turns::reply_in, table::specs::Turns::turn_of, table::specs::Turns::work_of))]

pub mod arc_turn;
pub mod parallel_turn;
pub mod two_arcs_turn;
