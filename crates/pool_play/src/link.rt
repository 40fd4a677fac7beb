// One direction of the link between the masters. It keeps the last 16 items ever sent, messages or acknowledgements, so that a script can lose them, repeat them and bring them late.
const KEPT: usize = 16;

// A message or an acknowledgement, with zeros behind it.
#[derive(Clone, Copy)]
pub struct Item {
    pub bytes: [u8; 688],
}

impl Item {
    pub const EMPTY: Item = Item { bytes: [0; 688] };

    // The item without the zeros behind it, as its length field says; two bytes where there is none.
    pub fn message(&self) -> &[u8] {
        let behind = u16::from_be_bytes([self.bytes[0], self.bytes[1]]);
        &self.bytes[..(usize::from(behind) + 2).min(688)]
    }

    pub fn sequence_number(&self) -> u32 {
        u32::from_be_bytes([self.bytes[4], self.bytes[5], self.bytes[6], self.bytes[7]])
    }
}

// The n-th item ever sent lies at place n modulo the number kept.
#[derive(Clone, Copy)]
pub struct Link {
    items: [Item; KEPT],
    pub sent: u32,
}

impl Link {
    pub const EMPTY: Link = Link {
        items: [Item::EMPTY; KEPT],
        sent: 0,
    };

    // The next item is sent. There is no `From` from u32 to usize, and these casts are proved to lose nothing.
    pub fn put(&mut self, item: Item) {
        self.sent = self.sent.saturating_add(1);
        self.items[self.sent as usize % KEPT] = item;
    }

    // The n-th item ever sent; none where it was never sent, or is no longer kept.
    pub fn get(&self, n: u32) -> Option<Item> {
        let later = self.sent.checked_sub(n)?;
        if n == 0 || later as usize >= KEPT {
            return None;
        }
        Some(self.items[n as usize % KEPT])
    }
}
