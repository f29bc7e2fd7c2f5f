// The law of the limits, as the contract of a function that does nothing.
ghost use Rattle.std.specs.Prelude.{◌≡◌};
ghost use Rattle.gc_base.specs.Limits.{greatest_budget, greatest_latency, greatest_period, greatest_ram, greatest_scheduled_tick, greatest_tick, last_served_tick, least_ram, longest_checkpoint, longest_config, longest_image, longest_memory_queue, longest_script, longest_source, longest_uart_input, longest_write_queue, most_miss_registers, most_script_lines, most_sets, most_targets, most_ways, page_size, widest_dma_window};

use crate::limits::{
    BUDGET_MAX, CHECKPOINT_BYTES_MAX, CONFIG_BYTES_MAX, DMA_WINDOW_MAX, IMAGE_BYTES_MAX, LAST,
    LATENCY_MAX, MEMORY_QUEUE_MAX, MISS_REGISTERS_MAX, PAGE, PERIOD_MAX, RAM_MAX, RAM_MIN,
    SCRIPT_BYTES_MAX, SCRIPT_LINES_MAX, SETS_MAX, SOURCE_BYTES_MAX, TARGETS_MAX, TICK_MAX, TOP,
    UART_INPUT_MAX, WAYS_MAX, WRITE_QUEUE_MAX,
};

/// Each constant of `limits` is the number that the rules state.
pub fn limits_are_the_rules()
    ensures tick { TICK_MAX ≡ greatest_tick }
    ensures last { LAST ≡ last_served_tick }
    ensures top { TOP ≡ greatest_scheduled_tick }

    // Of RAM and the parts.
    ensures ram_least { RAM_MIN ≡ least_ram }
    ensures ram_most { RAM_MAX ≡ greatest_ram }
    ensures page { PAGE ≡ page_size }
    ensures latency { LATENCY_MAX ≡ greatest_latency }
    ensures period { PERIOD_MAX ≡ greatest_period }
    ensures sets { SETS_MAX ≡ most_sets }
    ensures ways { WAYS_MAX ≡ most_ways }
    ensures miss_registers { MISS_REGISTERS_MAX ≡ most_miss_registers }
    ensures targets { TARGETS_MAX ≡ most_targets }
    ensures write_queue { WRITE_QUEUE_MAX ≡ longest_write_queue }
    ensures memory_queue { MEMORY_QUEUE_MAX ≡ longest_memory_queue }
    ensures dma_window { DMA_WINDOW_MAX ≡ widest_dma_window }
    ensures budget { BUDGET_MAX ≡ greatest_budget }

    // Of files and what comes from outside.
    ensures config { CONFIG_BYTES_MAX ≡ longest_config }
    ensures script { SCRIPT_BYTES_MAX ≡ longest_script }
    ensures source { SOURCE_BYTES_MAX ≡ longest_source }
    ensures image { IMAGE_BYTES_MAX ≡ longest_image }
    ensures checkpoint { CHECKPOINT_BYTES_MAX ≡ longest_checkpoint }
    ensures script_lines { SCRIPT_LINES_MAX ≡ most_script_lines }
    ensures uart_input { UART_INPUT_MAX ≡ longest_uart_input }
{}
