//! Laws of nodes in files. Each holds for all of them, and its function does nothing.

ghost use Rattle.std.specs.Prelude.{◌≡◌};
ghost use Rattle.gate_file.specs.GateFile.{name_of};
ghost use Rattle.gate_file.specs.declared.gate.GateFile.{GateFile};
ghost use Rattle.tree_laws.specs.Stores.{KeepsPlaces};
ghost use Rattle.node_file.specs.FileNodes.{Adds, nodes_of};
ghost use Rattle.node_file.specs.Laws.{NodesStayBehindRoots, NodesStayInLongerFiles, PutNodesAreRead};
ghost use Rattle.node_file.specs.PastNodes.{past_nodes};
ghost use Rattle.node_file.specs.declared.file_nodes.FileNodes.{FileNodes};
ghost use Rattle.node_file.specs.declared.past_nodes.PastNodes.{PastNodes};

use view_ports::Folder;

/// A record that was put behind what is there reads as it was put.
pub fn put_nodes_are_read()
    ensures { PutNodesAreRead }
{}

/// What is put behind them changes no node.
pub fn nodes_stay_in_longer_files()
    ensures { NodesStayInLongerFiles }
{}

/// A file that has all of the bytes behind the slots has each node: after a commit, and after a crash.
pub fn nodes_stay_behind_roots()
    ensures { NodesStayBehindRoots }
{}

/// By the name of an object's file the nodes are read that a store over the object has, and those that it had before more was put.
pub fn past_nodes_are_the_files<F: Folder>()
    ensures same { (file : FileNodes F) (past : PastNodes F) → past.name ≡ name_of file.file.now → past.folder.now ≡ file.folder.now
        → past_nodes F.Folder past ≡ nodes_of F.Folder file }
    ensures later { (file : FileNodes F) (later : GateFile) (past : PastNodes F) → Adds F.Folder file.file.now later file.folder.now past.folder.now
        → past.name ≡ name_of file.file.now → KeepsPlaces (nodes_of F.Folder file) (past_nodes F.Folder past) }
{}
