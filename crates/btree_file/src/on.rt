//! A tree file and the space of its sectors, as a store of nodes.
ghost use Rattle.std.specs.Prelude.{◌≡◌, ℕ, IsTrue};
ghost use Rattle.btree_file.specs.Place.{IsInside, IsOpen};
ghost use Rattle.btree_file.specs.State.{Agrees};

use crate::heading::put_header;
use crate::marking::{find_bit, find_clear, is_reserved, mark};
use crate::putting::{get_node, held_node, put_node};
use crate::tree::TreeFile;
use crate::written::{are_few, is_written};
use btree_node::{Node, NodeStore, TreeShape};
use hx_bytes::Failed;
use sector_disk::SectorSpace;

/// The nodes of a tree file over a space of sectors.
#[derive(Drop)]
pub struct TreeOn<'a, 'b, P: SectorSpace> {
    pub tree: &'a mut TreeFile,
    pub space: &'b mut P,
    /// The fork's blocks lie in the volume.
    pub ghost inside: { IsInside tree.now.fork tree.now.per_block (P.SectorView.space space.now) },
    /// None of its sectors is the journal's.
    pub ghost open_sectors: { IsOpen tree.now.fork tree.now.per_block (P.SectorView.space space.now) },
    /// What the file keeps is what the space has.
    pub ghost agrees: { IsTrue (P.SectorView.space space.now).tells → Agrees tree.now (P.SectorView.space space.now).content },
}

impl<P: SectorSpace> NodeStore for TreeOn<'_, '_, P> {
    ghost use Rattle.std.specs.Prelude.{◌∷◌};
    ghost use Rattle.btree_file.specs.State.{state_of};
    ghost use Rattle.btree_file.specs.Frame.{FollowsOn};
    ghost use Rattle.btree_file.specs.FrameLaws.{follows_none, follows_both, state_well_formed};

    ghost state = { λ s. state_of (s.tree.ghost_name ∷ s.space.ghost_name ∷ (P.SectorView.space s.space.now).names) s.tree.now (P.SectorView.space s.space.now) };

    ghost follows = { λ a b. FollowsOn a.tree.now b.tree.now (P.SectorView.space a.space.now) (P.SectorView.space b.space.now) × P.SectorView.follows a.space.now b.space.now };

    ghost well_formed = { λ s. state_well_formed (s.tree.ghost_name ∷ s.space.ghost_name ∷ (P.SectorView.space s.space.now).names) s.tree.now (P.SectorView.space s.space.now) };

    ghost follows_refl = { λ s. (follows_none s.tree.now (P.SectorView.space s.space.now), P.SectorView.follows_refl s.space.now) };

    ghost follows_trans = { λ a b c p q. (follows_both a.tree.now b.tree.now c.tree.now (P.SectorView.space a.space.now) (P.SectorView.space b.space.now) (P.SectorView.space c.space.now) p.0 q.0, P.SectorView.follows_trans a.space.now b.space.now c.space.now p.1 q.1) };

    fn shape(&self) -> TreeShape {
        self.tree.shape
    }

    fn reshape(&mut self, shape: &TreeShape) {
        let tree = &mut *self.tree;
        tree.shape = *shape;
        if shape.total == 0 {
            return;
        }
        tree.header.set_shape(shape);
        put_header(&mut *self.space, &tree.fork, tree.per_block, &tree.header);
    }

    fn load(&mut self, node: u32, into: &mut Node) -> Result<(), Failed> {
        let tree = &mut *self.tree;
        tree.loads = tree.loads.saturating_add(1);
        get_node(&mut *self.space, &tree.fork, tree.per_block, node, into)
    }

    fn held(&self, node: u32) -> Option<&[u8]> {
        let tree = &*self.tree;
        let space = &*self.space;
        held_node(
            space,
            &tree.fork,
            tree.per_block,
            node,
            tree.shape.node_size,
        )
    }

    fn save(&mut self, node: u32, from: &Node) {
        let tree = &*self.tree;
        if is_reserved(&tree.map, node) {
            return;
        }
        put_node(&mut *self.space, &tree.fork, tree.per_block, node, from);
    }

    fn take_node(&mut self) -> Result<u32, Failed> {
        let tree = &mut *self.tree;
        let found = find_clear(
            &mut *self.space,
            &tree.fork,
            tree.per_block,
            &tree.map,
            tree.shape.total,
            &mut tree.page,
        )?;
        tree.shape.free -= 1;
        let Some(spot) = found else {
            return Ok(0);
        };
        mark(
            &mut *self.space,
            &tree.fork,
            tree.per_block,
            &mut tree.page,
            &mut tree.header,
            spot.stretch,
            spot.bit,
            true,
        );
        Ok(spot.node)
    }

    fn give_node(&mut self, node: u32) -> Result<(), Failed> {
        let tree = &mut *self.tree;
        if is_reserved(&tree.map, node) {
            return Ok(());
        }
        if tree.shape.free >= tree.shape.total {
            return Ok(());
        }
        let Some(spot) = find_bit(&tree.map, tree.shape.total, node) else {
            return Ok(());
        };
        get_node(
            &mut *self.space,
            &tree.fork,
            tree.per_block,
            spot.stretch.node,
            &mut tree.page,
        )?;
        let place = 8 * spot.stretch.at + spot.bit;
        if tree.page.first_clear(place, place + 1) == place {
            return Ok(());
        }
        tree.shape.free += 1;
        mark(
            &mut *self.space,
            &tree.fork,
            tree.per_block,
            &mut tree.page,
            &mut tree.header,
            spot.stretch,
            spot.bit,
            false,
        );
        Ok(())
    }

    /// Only where so many writes have no room the nodes that aren't written yet are counted.
    fn has_room(&self, many: u64) -> bool {
        let tree = &*self.tree;
        let space = &*self.space;
        let per_node = tree.shape.node_size / 512;
        let left = space.spare() / per_node as u64;
        if many <= left {
            return true;
        }
        are_few(
            space,
            &tree.fork,
            tree.per_block,
            per_node,
            tree.shape.total,
            left,
        )
    }

    fn is_written(&self, node: u32) -> bool {
        let tree = &*self.tree;
        let space = &*self.space;
        let per_node = tree.shape.node_size / 512;
        is_written(space, &tree.fork, tree.per_block, per_node, node)
    }

    fn fail(&mut self) -> Failed {
        let space = &mut *self.space;
        space.fail()
    }
}
