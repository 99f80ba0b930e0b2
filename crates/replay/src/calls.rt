// The calls that are replayed, by their tags. A call's tag is its place in the oracle's list of calls.
use crate::layers::judge_layer;
use crate::report::print_name;
use crate::stepped_layer::judge_history;
use replay_answers::Finding;
use replay_calls::{
    judge_activation_block, judge_binary16, judge_block_converter, judge_block_decoder,
    judge_block_quantizer, judge_fixed_order_sum, judge_row_dot,
};

// The tag of a record whose payload is the name of the call before it.
const NAME: u8 = 255;

// What comes of a record with this tag: an answer is judged, and a name printed.
pub fn judge(rt: &impl Print, tag: u8, payload: &[u8]) -> Finding {
    match tag {
        0..=1 => judge_binary16(tag, payload),
        2..=6 => judge_block_decoder(tag, payload),
        7..=10 => judge_fixed_order_sum(tag, payload),
        11..=12 => judge_block_quantizer(tag, payload),
        13..=15 => judge_activation_block(tag, payload),
        16..=18 => judge_row_dot(tag, payload),
        19..=27 => judge_layer(tag, payload),
        28 => judge_history(payload),
        29 => judge_block_decoder(tag, payload),
        30 => judge_row_dot(tag, payload),
        31 => judge_activation_block(tag, payload),
        32 => judge_row_dot(tag, payload),
        33..=35 => judge_layer(tag, payload),
        36 => judge_block_decoder(tag, payload),
        37 => judge_block_quantizer(tag, payload),
        38 => judge_layer(tag, payload),
        39..=40 => judge_block_converter(tag, payload),
        41 => judge_block_decoder(tag, payload),
        42 => judge_block_quantizer(tag, payload),
        43 => judge_layer(tag, payload),
        NAME => {
            print_name(rt, payload);
            Finding::Name
        }
        _ => Finding::Unknown,
    }
}
