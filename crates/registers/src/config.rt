// The two fields of CnfgB, each by a constant table of eight: a row for each field that can be written, as the chip has them, also where
// rows are alike.
ghost use Rattle.std.specs.Prelude.{◌≡◌, ◌%◌};
ghost use Rattle.registers.specs.Config.{irq_reads, irq_line, dma_reads, dma_channel};

// The fields as they were written, three bits each.
#[derive(Clone, Copy)]
pub struct Fields {
    // bits 5 to 3
    pub irq: u8,
    // bits 2 to 0
    pub dma: u8,
}

// What a field reads as, and the interrupt line or the DMA channel that it selects.
#[derive(Clone, Copy)]
struct Row {
    reads: u8,
    selects: u8,
}

// by the IRQ field as it was written
const IRQ: [Row; 8] = [
    Row {
        reads: 1,
        selects: 7,
    },
    Row {
        reads: 1,
        selects: 7,
    },
    Row {
        reads: 2,
        selects: 9,
    },
    Row {
        reads: 1,
        selects: 7,
    },
    Row {
        reads: 1,
        selects: 7,
    },
    Row {
        reads: 1,
        selects: 7,
    },
    Row {
        reads: 1,
        selects: 7,
    },
    Row {
        reads: 7,
        selects: 5,
    },
];

// by the DMA field as it was written
const DMA: [Row; 8] = [
    Row {
        reads: 0,
        selects: 3,
    },
    Row {
        reads: 1,
        selects: 1,
    },
    Row {
        reads: 2,
        selects: 2,
    },
    Row {
        reads: 3,
        selects: 3,
    },
    Row {
        reads: 0,
        selects: 3,
    },
    Row {
        reads: 1,
        selects: 1,
    },
    Row {
        reads: 2,
        selects: 2,
    },
    Row {
        reads: 3,
        selects: 3,
    },
];

// Where a field has its row. A field has three bits, and its table eight rows.
fn place(field: u8) -> usize
    ensures { result ≡ field % 8 }
{
    usize::from(field % 8)
}

impl Fields {
    // What bits 5 to 3 read as.
    pub(crate) fn irq_reads(self) -> u8
        ensures { result ≡ irq_reads self.irq }
    {
        IRQ[place(self.irq)].reads
    }

    // The selected interrupt line.
    pub fn irq_line(self) -> u8
        ensures { result ≡ irq_line self.irq }
    {
        IRQ[place(self.irq)].selects
    }

    // What bits 2 to 0 read as.
    pub(crate) fn dma_reads(self) -> u8
        ensures { result ≡ dma_reads self.dma }
    {
        DMA[place(self.dma)].reads
    }

    // The selected DMA channel.
    pub fn dma_channel(self) -> u8
        ensures { result ≡ dma_channel self.dma }
    {
        DMA[place(self.dma)].selects
    }
}
