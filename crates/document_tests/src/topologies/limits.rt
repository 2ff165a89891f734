//! Documents of codes 11 to 16: regions, widths, protocols and sizes.

use super::{Row, compare};
use refusals::{Cause, Refusal};
use std::test::Fail;

fn half_a_page() -> Row {
    Row {
        text: "version = 1\nnode = [\n {name=\"m\", kind=\"manager\", bus=4, id_width=4, to=\"ram\"},\n {name=\"ram\", kind=\"memory\", bus=4, base=0, size=2048},\n]\n",
        fault: Some(Refusal::at(Cause::BadRegion, 2)),
    }
}

fn no_bytes() -> Row {
    Row {
        text: "version = 1\nnode = [\n {name=\"m\", kind=\"manager\", bus=4, id_width=4, to=\"d\"},\n {name=\"d\", kind=\"demux\", region=[{base=0, size=0, to=\"ram\"}]},\n {name=\"ram\", kind=\"memory\", bus=4, base=0, size=4096},\n]\n",
        fault: Some(Refusal::at(Cause::BadRegion, 2)),
    }
}

fn an_end_above_the_last_address() -> Row {
    Row {
        text: "version = 1\nnode = [\n {name=\"m\", kind=\"manager\", bus=4, id_width=4, to=\"ram\"},\n {name=\"ram\", kind=\"memory\", bus=4, base=0x7ffffffffffff000, size=0x2000},\n]\n",
        fault: Some(Refusal::at(Cause::BadRegion, 2)),
    }
}

fn an_end_at_the_last_address() -> Row {
    Row {
        text: "version = 1\nnode = [\n {name=\"m\", kind=\"manager\", bus=4, id_width=4, to=\"ram\"},\n {name=\"ram\", kind=\"memory\", bus=4, base=0x7ffffffffffff000, size=0x1000},\n]\n",
        fault: None,
    }
}

fn a_range_outside() -> Row {
    Row {
        text: "version = 1\nnode = [\n {name=\"m\", kind=\"manager\", bus=4, id_width=4, to=\"ram\"},\n {name=\"ram\", kind=\"memory\", bus=4, base=0, size=4096, hole=[{base=4096, size=128}]},\n]\n",
        fault: Some(Refusal::at(Cause::BadRegion, 2)),
    }
}

fn a_range_at_the_end() -> Row {
    Row {
        text: "version = 1\nnode = [\n {name=\"m\", kind=\"manager\", bus=4, id_width=4, to=\"ram\"},\n {name=\"ram\", kind=\"memory\", bus=4, base=0, size=4096, hole=[{base=3968, size=128}]},\n]\n",
        fault: None,
    }
}

fn half_a_line() -> Row {
    Row {
        text: "version = 1\nnode = [\n {name=\"m\", kind=\"manager\", bus=4, id_width=4, to=\"ram\"},\n {name=\"ram\", kind=\"memory\", bus=4, base=0, size=4096, read_only=[{base=64, size=128}]},\n]\n",
        fault: Some(Refusal::at(Cause::BadRegion, 2)),
    }
}

fn a_bad_memory_behind_an_overlap() -> Row {
    Row {
        text: "version = 1\nnode = [\n {name=\"m\", kind=\"manager\", bus=4, id_width=4, to=\"d\"},\n {name=\"d\", kind=\"demux\", region=[{base=0, size=8192, to=\"p\"}, {base=4096, size=4096, to=\"q\"}]},\n {name=\"p\", kind=\"memory\", bus=4, base=0, size=4096},\n {name=\"q\", kind=\"memory\", bus=4, base=0, size=1},\n]\n",
        fault: Some(Refusal::at(Cause::BadRegion, 4)),
    }
}

fn touching_regions() -> Row {
    Row {
        text: "version = 1\nnode = [\n {name=\"m\", kind=\"manager\", bus=4, id_width=1, to=\"d\"},\n {name=\"d\", kind=\"demux\", region=[{base=0, size=4096, to=\"p\"}, {base=4096, size=4096, to=\"q\"}]},\n {name=\"p\", kind=\"memory\", bus=4, base=0, size=4096, fill=17, give=[10]},\n {name=\"q\", kind=\"memory\", bus=4, base=4096, size=4096, fill=34},\n]\n",
        fault: None,
    }
}

fn overlapping_regions() -> Row {
    Row {
        text: "version = 1\nnode = [\n {name=\"m\", kind=\"manager\", bus=4, id_width=1, to=\"d\"},\n {name=\"d\", kind=\"demux\", region=[{base=0, size=8192, to=\"p\"}, {base=4096, size=4096, to=\"q\"}]},\n {name=\"p\", kind=\"memory\", bus=4, base=0, size=4096, fill=17, give=[10]},\n {name=\"q\", kind=\"memory\", bus=4, base=4096, size=4096, fill=34},\n]\n",
        fault: Some(Refusal::at(Cause::Overlap, 2)),
    }
}

fn one_region_twice() -> Row {
    Row {
        text: "version = 1\nnode = [\n {name=\"m\", kind=\"manager\", bus=4, id_width=4, to=\"d\"},\n {name=\"d\", kind=\"demux\", region=[{base=0, size=4096, to=\"p\"}, {base=0, size=4096, to=\"p\"}]},\n {name=\"p\", kind=\"memory\", bus=4, base=0, size=4096},\n]\n",
        fault: Some(Refusal::at(Cause::Overlap, 2)),
    }
}

fn an_overlap_behind_another_bus() -> Row {
    Row {
        text: "version = 1\nnode = [\n {name=\"m\", kind=\"manager\", bus=8, id_width=4, to=\"s\"},\n {name=\"s\", kind=\"slice\", to=\"p\"},\n {name=\"p\", kind=\"memory\", bus=4, base=0, size=4096},\n {name=\"n\", kind=\"manager\", bus=4, id_width=4, to=\"d\"},\n {name=\"d\", kind=\"demux\", region=[{base=4096, size=8192, to=\"q\"}, {base=8192, size=4096, to=\"q\"}]},\n {name=\"q\", kind=\"memory\", bus=4, base=0, size=4096},\n]\n",
        fault: Some(Refusal::at(Cause::Overlap, 5)),
    }
}

fn a_memory_of_another_bus() -> Row {
    Row {
        text: "version = 1\nnode = [\n {name=\"m\", kind=\"manager\", bus=4, id_width=4, to=\"ram\"},\n {name=\"ram\", kind=\"memory\", bus=8, base=0, size=4096},\n]\n",
        fault: Some(Refusal::at(Cause::WidthMismatch, 2)),
    }
}

fn inputs_of_two_buses() -> Row {
    Row {
        text: "version = 1\nnode = [\n {name=\"a\", kind=\"manager\", bus=4, id_width=4, to=\"x\"},\n {name=\"b\", kind=\"manager\", bus=8, id_width=4, to=\"x\"},\n {name=\"x\", kind=\"mux\", to=\"ram\"},\n {name=\"ram\", kind=\"memory\", bus=4, base=0, size=4096},\n]\n",
        fault: Some(Refusal::at(Cause::WidthMismatch, 3)),
    }
}

fn a_converter_to_the_same_bus() -> Row {
    Row {
        text: "version = 1\nnode = [\n {name=\"m\", kind=\"manager\", bus=4, id_width=4, to=\"u\"},\n {name=\"u\", kind=\"up\", to=\"ram\", bus=4},\n {name=\"ram\", kind=\"memory\", bus=4, base=0, size=4096},\n]\n",
        fault: Some(Refusal::at(Cause::WidthMismatch, 2)),
    }
}

fn a_down_to_a_wider_bus() -> Row {
    Row {
        text: "version = 1\nnode = [\n {name=\"m\", kind=\"manager\", bus=4, id_width=4, to=\"dn\"},\n {name=\"dn\", kind=\"down\", to=\"ram\", bus=8},\n {name=\"ram\", kind=\"memory\", bus=8, base=0, size=4096},\n]\n",
        fault: Some(Refusal::at(Cause::WidthMismatch, 2)),
    }
}

fn a_converter_to_the_next_bus() -> Row {
    Row {
        text: "version = 1\nnode = [\n {name=\"m\", kind=\"manager\", bus=4, id_width=4, to=\"u\"},\n {name=\"u\", kind=\"up\", to=\"ram\", bus=8},\n {name=\"ram\", kind=\"memory\", bus=8, base=0, size=4096},\n]\n",
        fault: None,
    }
}

fn another_bus_behind_wide_ids() -> Row {
    Row {
        text: "version = 1\nnode = [\n {name=\"a\", kind=\"manager\", bus=4, id_width=16, to=\"x\"},\n {name=\"b\", kind=\"manager\", bus=4, id_width=4, to=\"x\"},\n {name=\"x\", kind=\"mux\", to=\"ram\"},\n {name=\"ram\", kind=\"memory\", bus=4, base=0, size=4096},\n {name=\"c\", kind=\"manager\", bus=4, id_width=4, to=\"rom\"},\n {name=\"rom\", kind=\"memory\", bus=8, base=0, size=4096},\n]\n",
        fault: Some(Refusal::at(Cause::WidthMismatch, 6)),
    }
}

fn three_managers_of_15_bits() -> Row {
    Row {
        text: "version = 1\nnode = [\n {name=\"a\", kind=\"manager\", bus=4, id_width=15, to=\"x\"},\n {name=\"b\", kind=\"manager\", bus=4, id_width=15, to=\"x\"},\n {name=\"c\", kind=\"manager\", bus=4, id_width=15, to=\"x\"},\n {name=\"x\", kind=\"mux\", to=\"ram\"},\n {name=\"ram\", kind=\"memory\", bus=4, base=0, size=4096},\n]\n",
        fault: Some(Refusal::at(Cause::IdOverflow, 4)),
    }
}

fn two_managers_of_15_bits() -> Row {
    Row {
        text: "version = 1\nnode = [\n {name=\"a\", kind=\"manager\", bus=4, id_width=15, to=\"x\"},\n {name=\"b\", kind=\"manager\", bus=4, id_width=15, to=\"x\"},\n {name=\"x\", kind=\"mux\", to=\"ram\"},\n {name=\"ram\", kind=\"memory\", bus=4, base=0, size=4096},\n]\n",
        fault: None,
    }
}

fn a_crossbar_of_two_of_16_bits() -> Row {
    Row {
        text: "version = 1\nnode = [\n {name=\"a\", kind=\"manager\", bus=4, id_width=16, to=\"x\"},\n {name=\"b\", kind=\"manager\", bus=4, id_width=0, to=\"x\"},\n {name=\"x\", kind=\"crossbar\", region=[{base=0, size=4096, to=\"ram\"}]},\n {name=\"ram\", kind=\"memory\", bus=4, base=0, size=4096},\n]\n",
        fault: Some(Refusal::at(Cause::IdOverflow, 3)),
    }
}

fn wide_ids_behind_lite() -> Row {
    Row {
        text: "version = 1\nnode = [\n {name=\"e\", kind=\"manager\", bus=16, id_width=4, to=\"l\"},\n {name=\"l\", kind=\"lite\", to=\"lm\"},\n {name=\"lm\", kind=\"lite_memory\", base=0, size=4096},\n {name=\"a\", kind=\"manager\", bus=4, id_width=16, to=\"x\"},\n {name=\"b\", kind=\"manager\", bus=4, id_width=4, to=\"x\"},\n {name=\"x\", kind=\"mux\", to=\"ram\"},\n {name=\"ram\", kind=\"memory\", bus=4, base=0, size=4096},\n]\n",
        fault: Some(Refusal::at(Cause::IdOverflow, 6)),
    }
}

fn lite_from_a_wide_bus() -> Row {
    Row {
        text: "version = 1\nnode = [\n {name=\"m\", kind=\"manager\", bus=16, id_width=4, to=\"l\"},\n {name=\"l\", kind=\"lite\", to=\"lm\"},\n {name=\"lm\", kind=\"lite_memory\", base=0, size=4096},\n]\n",
        fault: Some(Refusal::at(Cause::LiteMismatch, 2)),
    }
}

fn lite_from_a_bus_of_8_bytes() -> Row {
    Row {
        text: "version = 1\nnode = [\n {name=\"m\", kind=\"manager\", bus=8, id_width=4, to=\"l\"},\n {name=\"l\", kind=\"lite\", to=\"s\"},\n {name=\"s\", kind=\"slice\", to=\"lm\"},\n {name=\"lm\", kind=\"lite_memory\", base=0, size=4096},\n]\n",
        fault: None,
    }
}

fn a_lite_memory_on_axi4() -> Row {
    Row {
        text: "version = 1\nnode = [\n {name=\"m\", kind=\"manager\", bus=4, id_width=4, to=\"lm\"},\n {name=\"lm\", kind=\"lite_memory\", base=0, size=4096},\n]\n",
        fault: Some(Refusal::at(Cause::LiteMismatch, 2)),
    }
}

fn a_memory_on_lite() -> Row {
    Row {
        text: "version = 1\nnode = [\n {name=\"m\", kind=\"manager\", bus=4, id_width=4, to=\"l\"},\n {name=\"l\", kind=\"lite\", to=\"ram\"},\n {name=\"ram\", kind=\"memory\", bus=4, base=0, size=4096},\n]\n",
        fault: Some(Refusal::at(Cause::LiteMismatch, 3)),
    }
}

fn lite_below_lite() -> Row {
    Row {
        text: "version = 1\nnode = [\n {name=\"m\", kind=\"manager\", bus=4, id_width=4, to=\"l\"},\n {name=\"l\", kind=\"lite\", to=\"k\"},\n {name=\"k\", kind=\"lite\", to=\"lm\"},\n {name=\"lm\", kind=\"lite_memory\", base=0, size=4096},\n]\n",
        fault: Some(Refusal::at(Cause::LiteMismatch, 3)),
    }
}

fn a_memory_on_lite_behind_many_holes() -> Row {
    Row {
        text: "version = 1\nnode = [\n {name=\"m\", kind=\"manager\", bus=4, id_width=4, to=\"ram\"},\n {name=\"ram\", kind=\"memory\", bus=4, base=0, size=4096, hole=[{base=0, size=128}, {base=0, size=128}, {base=0, size=128}, {base=0, size=128}, {base=0, size=128}, {base=0, size=128}, {base=0, size=128}, {base=0, size=128}, {base=0, size=128}, {base=0, size=128}, {base=0, size=128}, {base=0, size=128}, {base=0, size=128}, {base=0, size=128}, {base=0, size=128}, {base=0, size=128}, {base=0, size=128}, {base=0, size=128}, {base=0, size=128}, {base=0, size=128}, {base=0, size=128}, {base=0, size=128}, {base=0, size=128}, {base=0, size=128}, {base=0, size=128}, {base=0, size=128}, {base=0, size=128}, {base=0, size=128}, {base=0, size=128}, {base=0, size=128}, {base=0, size=128}, {base=0, size=128}, {base=0, size=128}, {base=0, size=128}, {base=0, size=128}, {base=0, size=128}, {base=0, size=128}, {base=0, size=128}, {base=0, size=128}, {base=0, size=128}, {base=0, size=128}, {base=0, size=128}, {base=0, size=128}, {base=0, size=128}, {base=0, size=128}, {base=0, size=128}, {base=0, size=128}, {base=0, size=128}, {base=0, size=128}, {base=0, size=128}, {base=0, size=128}, {base=0, size=128}, {base=0, size=128}, {base=0, size=128}, {base=0, size=128}, {base=0, size=128}, {base=0, size=128}, {base=0, size=128}, {base=0, size=128}, {base=0, size=128}, {base=0, size=128}, {base=0, size=128}, {base=0, size=128}, {base=0, size=128}, {base=0, size=128}]},\n {name=\"n\", kind=\"manager\", bus=4, id_width=4, to=\"l\"},\n {name=\"l\", kind=\"lite\", to=\"rom\"},\n {name=\"rom\", kind=\"memory\", bus=4, base=0, size=4096},\n]\n",
        fault: Some(Refusal::at(Cause::LiteMismatch, 5)),
    }
}

fn seventeen_managers() -> Row {
    Row {
        text: "version = 1\nnode = [\n {name=\"m0\", kind=\"manager\", bus=4, id_width=4, to=\"x\"},\n {name=\"m1\", kind=\"manager\", bus=4, id_width=4, to=\"x\"},\n {name=\"m2\", kind=\"manager\", bus=4, id_width=4, to=\"x\"},\n {name=\"m3\", kind=\"manager\", bus=4, id_width=4, to=\"x\"},\n {name=\"m4\", kind=\"manager\", bus=4, id_width=4, to=\"x\"},\n {name=\"m5\", kind=\"manager\", bus=4, id_width=4, to=\"x\"},\n {name=\"m6\", kind=\"manager\", bus=4, id_width=4, to=\"x\"},\n {name=\"m7\", kind=\"manager\", bus=4, id_width=4, to=\"x\"},\n {name=\"m8\", kind=\"manager\", bus=4, id_width=4, to=\"x\"},\n {name=\"m9\", kind=\"manager\", bus=4, id_width=4, to=\"x\"},\n {name=\"m10\", kind=\"manager\", bus=4, id_width=4, to=\"x\"},\n {name=\"m11\", kind=\"manager\", bus=4, id_width=4, to=\"x\"},\n {name=\"m12\", kind=\"manager\", bus=4, id_width=4, to=\"x\"},\n {name=\"m13\", kind=\"manager\", bus=4, id_width=4, to=\"x\"},\n {name=\"m14\", kind=\"manager\", bus=4, id_width=4, to=\"x\"},\n {name=\"m15\", kind=\"manager\", bus=4, id_width=4, to=\"x\"},\n {name=\"m16\", kind=\"manager\", bus=4, id_width=4, to=\"x\"},\n {name=\"x\", kind=\"mux\", to=\"ram\"},\n {name=\"ram\", kind=\"memory\", bus=4, base=0, size=4096},\n]\n",
        fault: Some(Refusal::at(Cause::TooLarge, 18)),
    }
}

fn sixteen_managers() -> Row {
    Row {
        text: "version = 1\nnode = [\n {name=\"m0\", kind=\"manager\", bus=4, id_width=4, to=\"x\"},\n {name=\"m1\", kind=\"manager\", bus=4, id_width=4, to=\"x\"},\n {name=\"m2\", kind=\"manager\", bus=4, id_width=4, to=\"x\"},\n {name=\"m3\", kind=\"manager\", bus=4, id_width=4, to=\"x\"},\n {name=\"m4\", kind=\"manager\", bus=4, id_width=4, to=\"x\"},\n {name=\"m5\", kind=\"manager\", bus=4, id_width=4, to=\"x\"},\n {name=\"m6\", kind=\"manager\", bus=4, id_width=4, to=\"x\"},\n {name=\"m7\", kind=\"manager\", bus=4, id_width=4, to=\"x\"},\n {name=\"m8\", kind=\"manager\", bus=4, id_width=4, to=\"x\"},\n {name=\"m9\", kind=\"manager\", bus=4, id_width=4, to=\"x\"},\n {name=\"m10\", kind=\"manager\", bus=4, id_width=4, to=\"x\"},\n {name=\"m11\", kind=\"manager\", bus=4, id_width=4, to=\"x\"},\n {name=\"m12\", kind=\"manager\", bus=4, id_width=4, to=\"x\"},\n {name=\"m13\", kind=\"manager\", bus=4, id_width=4, to=\"x\"},\n {name=\"m14\", kind=\"manager\", bus=4, id_width=4, to=\"x\"},\n {name=\"m15\", kind=\"manager\", bus=4, id_width=4, to=\"x\"},\n {name=\"x\", kind=\"mux\", to=\"ram\"},\n {name=\"ram\", kind=\"memory\", bus=4, base=0, size=4096},\n]\n",
        fault: None,
    }
}

fn many_ranges() -> Row {
    Row {
        text: "version = 1\nnode = [\n {name=\"m\", kind=\"manager\", bus=4, id_width=4, to=\"ram\"},\n {name=\"ram\", kind=\"memory\", bus=4, base=0, size=4096, read_only=[{base=0, size=128}, {base=0, size=128}, {base=0, size=128}, {base=0, size=128}, {base=0, size=128}, {base=0, size=128}, {base=0, size=128}, {base=0, size=128}, {base=0, size=128}, {base=0, size=128}, {base=0, size=128}, {base=0, size=128}, {base=0, size=128}, {base=0, size=128}, {base=0, size=128}, {base=0, size=128}, {base=0, size=128}, {base=0, size=128}, {base=0, size=128}, {base=0, size=128}, {base=0, size=128}, {base=0, size=128}, {base=0, size=128}, {base=0, size=128}, {base=0, size=128}, {base=0, size=128}, {base=0, size=128}, {base=0, size=128}, {base=0, size=128}, {base=0, size=128}, {base=0, size=128}, {base=0, size=128}, {base=0, size=128}, {base=0, size=128}, {base=0, size=128}, {base=0, size=128}, {base=0, size=128}, {base=0, size=128}, {base=0, size=128}, {base=0, size=128}, {base=0, size=128}, {base=0, size=128}, {base=0, size=128}, {base=0, size=128}, {base=0, size=128}, {base=0, size=128}, {base=0, size=128}, {base=0, size=128}, {base=0, size=128}, {base=0, size=128}, {base=0, size=128}, {base=0, size=128}, {base=0, size=128}, {base=0, size=128}, {base=0, size=128}, {base=0, size=128}, {base=0, size=128}, {base=0, size=128}, {base=0, size=128}, {base=0, size=128}, {base=0, size=128}, {base=0, size=128}, {base=0, size=128}, {base=0, size=128}, {base=0, size=128}]},\n]\n",
        fault: Some(Refusal::at(Cause::TooLarge, 2)),
    }
}

fn as_many_ranges_as_fit() -> Row {
    Row {
        text: "version = 1\nnode = [\n {name=\"m\", kind=\"manager\", bus=4, id_width=4, to=\"ram\"},\n {name=\"ram\", kind=\"memory\", bus=4, base=0, size=4096, read_only=[{base=0, size=128}, {base=0, size=128}, {base=0, size=128}, {base=0, size=128}, {base=0, size=128}, {base=0, size=128}, {base=0, size=128}, {base=0, size=128}, {base=0, size=128}, {base=0, size=128}, {base=0, size=128}, {base=0, size=128}, {base=0, size=128}, {base=0, size=128}, {base=0, size=128}, {base=0, size=128}, {base=0, size=128}, {base=0, size=128}, {base=0, size=128}, {base=0, size=128}, {base=0, size=128}, {base=0, size=128}, {base=0, size=128}, {base=0, size=128}, {base=0, size=128}, {base=0, size=128}, {base=0, size=128}, {base=0, size=128}, {base=0, size=128}, {base=0, size=128}, {base=0, size=128}, {base=0, size=128}, {base=0, size=128}, {base=0, size=128}, {base=0, size=128}, {base=0, size=128}, {base=0, size=128}, {base=0, size=128}, {base=0, size=128}, {base=0, size=128}, {base=0, size=128}, {base=0, size=128}, {base=0, size=128}, {base=0, size=128}, {base=0, size=128}, {base=0, size=128}, {base=0, size=128}, {base=0, size=128}, {base=0, size=128}, {base=0, size=128}, {base=0, size=128}, {base=0, size=128}, {base=0, size=128}, {base=0, size=128}, {base=0, size=128}, {base=0, size=128}, {base=0, size=128}, {base=0, size=128}, {base=0, size=128}, {base=0, size=128}, {base=0, size=128}, {base=0, size=128}, {base=0, size=128}, {base=0, size=128}]},\n]\n",
        fault: None,
    }
}

fn many_regions() -> Row {
    Row {
        text: "version = 1\nnode = [\n {name=\"m\", kind=\"manager\", bus=4, id_width=4, to=\"d\"},\n {name=\"d\", kind=\"demux\", region=[{base=0, size=4096, to=\"ram\"}, {base=4096, size=4096, to=\"ram\"}, {base=8192, size=4096, to=\"ram\"}, {base=12288, size=4096, to=\"ram\"}, {base=16384, size=4096, to=\"ram\"}, {base=20480, size=4096, to=\"ram\"}, {base=24576, size=4096, to=\"ram\"}, {base=28672, size=4096, to=\"ram\"}, {base=32768, size=4096, to=\"ram\"}, {base=36864, size=4096, to=\"ram\"}, {base=40960, size=4096, to=\"ram\"}, {base=45056, size=4096, to=\"ram\"}, {base=49152, size=4096, to=\"ram\"}, {base=53248, size=4096, to=\"ram\"}, {base=57344, size=4096, to=\"ram\"}, {base=61440, size=4096, to=\"ram\"}, {base=65536, size=4096, to=\"ram\"}, {base=69632, size=4096, to=\"ram\"}, {base=73728, size=4096, to=\"ram\"}, {base=77824, size=4096, to=\"ram\"}, {base=81920, size=4096, to=\"ram\"}, {base=86016, size=4096, to=\"ram\"}, {base=90112, size=4096, to=\"ram\"}, {base=94208, size=4096, to=\"ram\"}, {base=98304, size=4096, to=\"ram\"}, {base=102400, size=4096, to=\"ram\"}, {base=106496, size=4096, to=\"ram\"}, {base=110592, size=4096, to=\"ram\"}, {base=114688, size=4096, to=\"ram\"}, {base=118784, size=4096, to=\"ram\"}, {base=122880, size=4096, to=\"ram\"}, {base=126976, size=4096, to=\"ram\"}, {base=131072, size=4096, to=\"ram\"}, {base=135168, size=4096, to=\"ram\"}, {base=139264, size=4096, to=\"ram\"}, {base=143360, size=4096, to=\"ram\"}, {base=147456, size=4096, to=\"ram\"}, {base=151552, size=4096, to=\"ram\"}, {base=155648, size=4096, to=\"ram\"}, {base=159744, size=4096, to=\"ram\"}, {base=163840, size=4096, to=\"ram\"}, {base=167936, size=4096, to=\"ram\"}, {base=172032, size=4096, to=\"ram\"}, {base=176128, size=4096, to=\"ram\"}, {base=180224, size=4096, to=\"ram\"}, {base=184320, size=4096, to=\"ram\"}, {base=188416, size=4096, to=\"ram\"}, {base=192512, size=4096, to=\"ram\"}, {base=196608, size=4096, to=\"ram\"}, {base=200704, size=4096, to=\"ram\"}, {base=204800, size=4096, to=\"ram\"}, {base=208896, size=4096, to=\"ram\"}, {base=212992, size=4096, to=\"ram\"}, {base=217088, size=4096, to=\"ram\"}, {base=221184, size=4096, to=\"ram\"}, {base=225280, size=4096, to=\"ram\"}, {base=229376, size=4096, to=\"ram\"}, {base=233472, size=4096, to=\"ram\"}, {base=237568, size=4096, to=\"ram\"}, {base=241664, size=4096, to=\"ram\"}, {base=245760, size=4096, to=\"ram\"}, {base=249856, size=4096, to=\"ram\"}, {base=253952, size=4096, to=\"ram\"}, {base=258048, size=4096, to=\"ram\"}, {base=262144, size=4096, to=\"ram\"}]},\n {name=\"ram\", kind=\"memory\", bus=4, base=0, size=266240},\n]\n",
        fault: Some(Refusal::at(Cause::TooLarge, 2)),
    }
}

#[test]
fn rows_of_code_11(rt: HostRuntime) -> Result<(), Fail> {
    for row in [
        half_a_page(),
        no_bytes(),
        an_end_above_the_last_address(),
        an_end_at_the_last_address(),
        a_range_outside(),
        a_range_at_the_end(),
        half_a_line(),
        a_bad_memory_behind_an_overlap(),
    ] {
        compare(&rt, &row);
    }
    Ok(())
}

#[test]
fn rows_of_code_12(rt: HostRuntime) -> Result<(), Fail> {
    for row in [
        touching_regions(),
        overlapping_regions(),
        one_region_twice(),
        an_overlap_behind_another_bus(),
    ] {
        compare(&rt, &row);
    }
    Ok(())
}

#[test]
fn rows_of_code_13(rt: HostRuntime) -> Result<(), Fail> {
    for row in [
        a_memory_of_another_bus(),
        inputs_of_two_buses(),
        a_converter_to_the_same_bus(),
        a_down_to_a_wider_bus(),
        a_converter_to_the_next_bus(),
        another_bus_behind_wide_ids(),
    ] {
        compare(&rt, &row);
    }
    Ok(())
}

#[test]
fn rows_of_code_14(rt: HostRuntime) -> Result<(), Fail> {
    for row in [
        three_managers_of_15_bits(),
        two_managers_of_15_bits(),
        a_crossbar_of_two_of_16_bits(),
        wide_ids_behind_lite(),
    ] {
        compare(&rt, &row);
    }
    Ok(())
}

#[test]
fn rows_of_code_15(rt: HostRuntime) -> Result<(), Fail> {
    for row in [
        lite_from_a_wide_bus(),
        lite_from_a_bus_of_8_bytes(),
        a_lite_memory_on_axi4(),
        a_memory_on_lite(),
        lite_below_lite(),
        a_memory_on_lite_behind_many_holes(),
    ] {
        compare(&rt, &row);
    }
    Ok(())
}

#[test]
fn rows_of_code_16(rt: HostRuntime) -> Result<(), Fail> {
    for row in [
        seventeen_managers(),
        sixteen_managers(),
        many_ranges(),
        as_many_ranges_as_fit(),
        many_regions(),
    ] {
        compare(&rt, &row);
    }
    Ok(())
}
