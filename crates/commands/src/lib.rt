// One command: a module for each code that takes no arcs, and one turn for every code, from state and command to reply and state.

#![tactic(auto, unfolding(table::specs::States::changed, table::specs::States::given_of, table::specs::States::needs_settings, table::specs::Table::allowance, table::specs::Table::cone_in_eqr, table::specs::Table::cone_in_pc, table::specs::Table::precision, table::specs::Turns::finite_from, table::specs::Turns::first_failing, table::specs::Turns::flags_from, table::specs::Turns::in_range_from, table::specs::Turns::left_in, table::specs::Turns::refusal_of, table::specs::Turns::reply_in, table::specs::Turns::status_in, table::specs::Turns::turn_of, table::specs::Turns::work_of))]

mod allowance_turn;
mod cone_in_eqr_turn;
mod cone_in_pc_turn;
mod precision_turn;
pub mod turn;
