//! What requests ask of documents, sessions and numbers, answered by look-ups.
ghost use Rattle.std.specs.Prelude.{◌≡◌};
ghost use Rattle.tree_world.specs.Standing.{Stands};

use crate::world::TreeWorld;
use febe_data::{Mode, Tumbler};
use tumbler::MOST_DOCUMENT_PLACES;
use world_rules::{LookUp, WorldError};

impl LookUp for TreeWorld {
    ghost stands = { λ it view. Stands it view };

    fn counted(&self) -> u64 {
        self.counted
    }

    fn entries_of(&self, session: u64) -> u64 {
        self.sessions.get(session)
    }

    fn content(&self) -> usize {
        self.content
    }

    fn has_document(&self, document: &Tumbler) -> bool {
        self.documents.has(document)
    }

    fn is_published(&self, document: &Tumbler) -> bool {
        self.documents.published(document)
    }

    fn account_of_session(&self, session: u64) -> Option<Tumbler> {
        match self.access.account(session) {
            Some(account) => Some(account.copy()),
            None => None,
        }
    }

    fn mode_of(&self, session: u64, document: &Tumbler) -> Option<Mode> {
        self.access.mode(session, document)
    }

    fn is_held_against(&self, session: u64, document: &Tumbler) -> bool {
        match self.access.writer(document) {
            Some(writer) => writer != session,
            None => false,
        }
    }

    fn holder_of(&self, document: &Tumbler) -> Option<u64> {
        self.access.writer(document)
    }

    fn text_length(&self, document: &Tumbler) -> usize {
        match self.documents.root(document) {
            Some(root) => self.pooms.length(root) as usize,
            None => 0,
        }
    }

    fn link_length(&self, document: &Tumbler) -> usize {
        match self.documents.root(document) {
            Some(root) => self.pooms.links(root) as usize,
            None => 0,
        }
    }

    fn next_document(&self, account: &Tumbler) -> Result<Tumbler, WorldError> {
        if !account.is_account() {
            return Err(WorldError::NoTumbler);
        }
        Ok(self.documents.next_document(account))
    }

    fn next_version(&self, document: &Tumbler) -> Result<Tumbler, WorldError> {
        if !document.is_document() || document.places().len() >= MOST_DOCUMENT_PLACES {
            return Err(WorldError::NoTumbler);
        }
        let account = document.account_of();
        Ok(self.documents.version_address(document, &account))
    }

    fn next_content(&self, document: &Tumbler) -> Result<u32, WorldError> {
        self.documents
            .content(document)
            .checked_add(1)
            .ok_or(WorldError::TooGreat)
    }

    fn next_link(&self, home: &Tumbler) -> Result<u32, WorldError> {
        let count = self.links.count_of_home(home);
        count.checked_add(1).ok_or(WorldError::TooGreat)
    }
}
