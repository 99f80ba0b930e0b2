// The C functions of the static library, a module for each family of calls: each calls the public function of its name
// and lays the answer out as include/jambharrow.h says.
#![tactic(auto, unfolding(c_answers::specs::Answers::numbered, c_answers::specs::Answers::numbered_blocks, c_answers::specs::Answers::laid_out_blocks, c_answers::specs::Answers::laid_out_beside, c_answers::specs::Lost::numbered_lost))]

mod activation_blocks;
mod binary16;
mod block_converters;
mod block_decoders;
mod block_quantizers;
mod fixed_order_sums;
mod fused_dots;
mod linear_layers;
mod stepped_layer;
mod version;
