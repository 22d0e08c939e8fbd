ghost use Rattle.std.specs.Prelude.{◌≡◌, ◌≤◌, ◌<◌, ◌^◌, true, nat_le};
ghost use Rattle.std.specs.Int.{w16, w32, w64};
ghost use Rattle.std.specs.Prelude.{length};
ghost use Rattle.pgs_codec.specs.Encodable.{is_labels, is_props, is_node_id, is_edge_id, is_node_row, is_edge_row, are_small_labels, are_small_props, is_small_node, is_small_edge};
ghost use Rattle.pgs_codec.specs.Payload.{labels_field, props_field, node_id_field, edge_id_field, node_row_field, edge_row_field};
ghost use Rattle.pgs_codec.specs.Reading.{counted_at, labels_at, props_at, node_id_at, edge_id_at, node_row_at, edge_row_at};
ghost use Rattle.pgs_codec.specs.Unread.{Reads};

use crate::field::{Field, read_all, size_of_all, write_all};
use crate::reader::Reader;
use crate::unread::Unread;
use pgs_base::{EdgeId, EdgeRow, Labels, Memory, Name, NodeId, NodeRow, Props, Value};
use pgs_base_keyed::{ascend, keys_ascend};
use std::alloc::Global;

/// Reads a count of two bytes, at most so much, and so many fields.
#[tactic(auto, unfolding(crate::specs::Reading::counted_at))]
fn read_counted<F: Field>(
    alloc: Global,
    reader: &mut Reader<'_>,
    most: u16,
) -> Result<Vec<F>, Unread>
    ensures { Reads (λ fields. fields.items) result reader.new.rest.now (counted_at w16 most F.field_at reader.old.rest.now) }
{
    let count = reader.number16()?;
    if count > most {
        return Err(Unread::Unfit);
    }
    read_all(alloc, reader, usize::from(count))
}

impl Field for Labels {
    ghost field = { labels_field };

    ghost is_field = { is_labels };

    ghost is_small = { are_small_labels };

    ghost field_at = { labels_at };

    fn size(&self) -> usize {
        size_of_all(self.as_slice()).saturating_add(2)
    }

    #[tactic(auto, using(crate::proofs::Lengths::sorted_from_test), unfolding(crate::specs::Reading::labels_at, crate::specs::Reading::tested_at))]
    fn read(alloc: Global, reader: &mut Reader<'_>) -> Result<Labels, Unread> {
        let names: Vec<Name> = read_counted(alloc, reader, 64)?;
        if !ascend(names.as_slice()) {
            return Err(Unread::Unfit);
        }
        Ok(Labels::from_vec(names))
    }

    #[tactic(auto, using(crate::proofs::Lengths::test_from_sorted, crate::proofs::Lengths::names_small))]
    fn write(&self, out: &mut Vec<u8>) -> Result<(), Memory> {
        let names = self.as_slice();
        out.extend_from_slice(&(names.len() as u16).to_be_bytes())?;
        write_all(names, out)
    }
}

impl Field for Props {
    ghost field = { props_field };

    ghost is_field = { is_props };

    ghost is_small = { are_small_props };

    ghost field_at = { props_at };

    fn size(&self) -> usize {
        size_of_all(self.as_slice()).saturating_add(2)
    }

    #[tactic(auto, using(crate::proofs::Lengths::sorted_from_test), unfolding(crate::specs::Reading::props_at, crate::specs::Reading::property_at, crate::specs::Reading::tested_at))]
    fn read(alloc: Global, reader: &mut Reader<'_>) -> Result<Props, Unread> {
        let rows: Vec<(Name, Value)> = read_counted(alloc, reader, 256)?;
        if !keys_ascend(rows.as_slice()) {
            return Err(Unread::Unfit);
        }
        Ok(Props::from_vec(rows))
    }

    #[tactic(auto, using(crate::proofs::Lengths::test_from_sorted))]
    fn write(&self, out: &mut Vec<u8>) -> Result<(), Memory> {
        let rows = self.as_slice();
        out.extend_from_slice(&(rows.len() as u16).to_be_bytes())?;
        write_all(rows, out)
    }
}

impl Field for NodeId {
    ghost field = { node_id_field };

    ghost is_field = { is_node_id };

    ghost is_small = { λ _. true };

    ghost field_at = { node_id_at };

    fn size(&self) -> usize {
        8
    }

    #[tactic(auto, unfolding(crate::specs::Reading::node_id_at, crate::specs::Reading::named_at))]
    fn read(_alloc: Global, reader: &mut Reader<'_>) -> Result<NodeId, Unread> {
        let number = reader.number64()?;
        Ok(NodeId(number))
    }

    fn write(&self, out: &mut Vec<u8>) -> Result<(), Memory> {
        out.extend_from_slice(&self.0.to_be_bytes())?;
        Ok(())
    }
}

impl Field for EdgeId {
    ghost field = { edge_id_field };

    ghost is_field = { is_edge_id };

    ghost is_small = { λ _. true };

    ghost field_at = { edge_id_at };

    fn size(&self) -> usize {
        8
    }

    #[tactic(auto, unfolding(crate::specs::Reading::edge_id_at, crate::specs::Reading::named_at))]
    fn read(_alloc: Global, reader: &mut Reader<'_>) -> Result<EdgeId, Unread> {
        let number = reader.number64()?;
        Ok(EdgeId(number))
    }

    fn write(&self, out: &mut Vec<u8>) -> Result<(), Memory> {
        out.extend_from_slice(&self.0.to_be_bytes())?;
        Ok(())
    }
}

impl Field for NodeRow {
    ghost field = { node_row_field };

    ghost is_field = { is_node_row };

    ghost is_small = { is_small_node };

    ghost field_at = { node_row_at };

    fn size(&self) -> usize {
        self.labels.size().saturating_add(self.props.size())
    }

    #[tactic(auto, unfolding(crate::specs::Reading::node_row_at, crate::specs::Reading::named_at, crate::specs::Reading::pair_at))]
    fn read(alloc: Global, reader: &mut Reader<'_>) -> Result<NodeRow, Unread> {
        let labels = Labels::read(alloc, reader)?;
        let props = Props::read(alloc, reader)?;
        Ok(NodeRow { labels, props })
    }

    fn write(&self, out: &mut Vec<u8>) -> Result<(), Memory> {
        self.labels.write(out)?;
        self.props.write(out)?;
        Ok(())
    }
}

impl Field for EdgeRow {
    ghost field = { edge_row_field };

    ghost is_field = { is_edge_row };

    ghost is_small = { is_small_edge };

    ghost field_at = { edge_row_at };

    fn size(&self) -> usize {
        self.labels
            .size()
            .saturating_add(self.props.size())
            .saturating_add(16)
    }

    #[tactic(auto, unfolding(crate::specs::Reading::edge_row_at, crate::specs::Reading::named_at, crate::specs::Reading::pair_at))]
    fn read(alloc: Global, reader: &mut Reader<'_>) -> Result<EdgeRow, Unread> {
        let source = NodeId::read(alloc, reader)?;
        let target = NodeId::read(alloc, reader)?;
        let labels = Labels::read(alloc, reader)?;
        let props = Props::read(alloc, reader)?;
        Ok(EdgeRow {
            source,
            target,
            labels,
            props,
        })
    }

    fn write(&self, out: &mut Vec<u8>) -> Result<(), Memory> {
        self.source.write(out)?;
        self.target.write(out)?;
        self.labels.write(out)?;
        self.props.write(out)
    }
}
