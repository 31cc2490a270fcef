// What C and Rust link: the library's calls with plain structs as answers. include/khuyurek.h
// declares the same for C.
#![tactic(auto)]

mod books;
mod building;
mod columns;
mod conversions;
mod descriptors;
mod indexes;
mod keys;
mod palettes;
mod replacing;
mod reports;
mod resources;
mod seasons;
mod stream;
mod swatches;
mod text;
mod trays;
mod walks;

ghost use Rattle.std.specs.Prelude.{◌≡◌};
ghost use Rattle.fault.specs.Answer.{told_written};
ghost use Rattle.khuyurek.specs.Written.{written_of};

pub use books::{
    AcbAnswer, AcbFull, AcbHeader, AcbPage, AcbRecord, AcbShown, AcbText, khuyurek_acb_full_length,
    khuyurek_acb_full_name, khuyurek_acb_judge, khuyurek_acb_length, khuyurek_acb_page_at,
    khuyurek_acb_read, khuyurek_acb_record_at, khuyurek_acb_shown_at, khuyurek_acb_shown_start,
    khuyurek_acb_write,
};
pub use building::{
    khuyurek_descriptor_build, khuyurek_descriptor_build_length, khuyurek_descriptor_entries,
};
pub use columns::{
    Parents, khuyurek_descriptor_parents, khuyurek_descriptor_read, khuyurek_descriptor_values,
};
pub use conversions::{ChannelBits, SampleValue, khuyurek_to_channel, khuyurek_to_sample};
pub use descriptors::{
    DescriptorAnswer, DescriptorTyped, DescriptorValue, khuyurek_descriptor_judge,
    khuyurek_descriptor_typed_at, khuyurek_descriptor_value_at,
};
use fault::Fault;
pub use indexes::{AcbFound, AcbIndexed, khuyurek_acb_find, khuyurek_acb_index};
pub use keys::{Found, khuyurek_descriptor_find};
pub use palettes::{
    AseAnswer, AseRecord, khuyurek_ase_judge, khuyurek_ase_length, khuyurek_ase_read,
    khuyurek_ase_record_at, khuyurek_ase_write,
};
pub use replacing::khuyurek_descriptor_replace;
pub use reports::{
    MergedReport, Reported, SeasonReport, khuyurek_report_add, khuyurek_report_merge,
};
pub use resources::{
    ResourceAnswer, ResourceFound, ResourceRecord, Section, khuyurek_document_resources,
    khuyurek_resource_find, khuyurek_resource_judge, khuyurek_resource_length,
    khuyurek_resource_read, khuyurek_resource_record_at, khuyurek_resource_write,
};
pub use seasons::{ComparedAnswer, khuyurek_compare};
pub use stream::{
    AcoFed, AcoFinished, AcoStream, khuyurek_aco_stream_feed, khuyurek_aco_stream_finish,
    khuyurek_aco_stream_start,
};
pub use swatches::{
    AcoAnswer, AcoRecord, khuyurek_aco_judge, khuyurek_aco_length, khuyurek_aco_read,
    khuyurek_aco_record_at, khuyurek_aco_write,
};
pub use text::{
    khuyurek_name_utf8, khuyurek_name_utf8_length, khuyurek_refusal_sentence, khuyurek_utf8,
    khuyurek_utf8_length,
};
pub use trays::{TrayAnswer, khuyurek_to_channels, khuyurek_to_samples};
pub use walks::{
    AcoStart, AcoStep, AseStart, AseStep, khuyurek_aco_walk, khuyurek_aco_walk_start,
    khuyurek_ase_walk, khuyurek_ase_walk_block, khuyurek_ase_walk_start,
};

// Number 0 is accepted, with the length in bytes; else the refusal, whose place is 0.
#[repr(C)]
#[derive(Drop)]
pub struct Length {
    pub number: u32,
    pub size: usize,
}

fn exported_length(w: Result<usize, Fault>) -> Length
    ensures { result ≡ written_of (told_written w) }
{
    match w {
        Ok(size) => Length { number: 0, size },
        Err(fault) => Length {
            number: fault.number(),
            size: 0,
        },
    }
}
